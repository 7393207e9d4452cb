//! The pulls that a walk has taken.

ghost use Rattle.std.specs.Prelude.{◌≡◌, ◌≢◌, ℕ, ◌+◌, ◌*◌, ◌<◌, ◌≤◌, ◌↔◌, ◌⊎◌, false, IsTrue, ◌∷◌, [], length, All, sum_by};
ghost use Rattle.nb_model.specs.Limits.{gm_limit};
ghost use Rattle.nb_model.specs.Valid.{AreInRange, IsBelow, IsInBox};
ghost use Rattle.nb_model.specs.Vector.{plus, zero_vector};
ghost use Rattle.nb_key.specs.Morton.{morton_key};
ghost use Rattle.nb_record.specs.Pages.{record_count};
ghost use Rattle.nb_record.specs.Records.{body_record, IsBodyRecord};
ghost use Rattle.nb_walk.specs.declared.term.Term.TheVariants as term;
ghost use Rattle.nb_walk.specs.Angle.{by_angle, level_of};
ghost use Rattle.nb_walk.specs.Terms.{term_mass};
ghost use Rattle.nb_walk.specs.Shown.{IsAtMost};
ghost use Rattle.nb_walk.specs.Taking.{Adds, page_terms};

use nb_fixed::{opens, pull};
use nb_key::Key;
use nb_model::{At, Params, V3};
use nb_record::{BodyPage, CellView};

/// How many bits an octant has in a key.
const OCTANT_BITS: u32 = 3;

/// The level of the deepest cells.
const DEEPEST_LEVEL: u32 = 21;

/// What a walk has taken for its target: the pulls, and the mass that gave them.
#[derive(Drop)]
pub(crate) struct Tally {
    /// The target's position, in box units.
    pub(crate) target: At,
    /// The key of the deepest cell that holds it.
    pub(crate) key: u64,
    /// The pulls, in box units a tick.
    pub(crate) sum: V3,
    /// The mass that gave them.
    pub(crate) taken: u64,
}

impl Tally {
    /// Nothing taken yet, for a target in the box.
    pub(crate) fn start(target: At) -> Tally
        requires { IsInBox target }
        ensures { result ≡ record { target = target; key = morton_key target; sum = zero_vector; taken = 0 } }
    {
        Tally {
            key: Key::of(target.x, target.y, target.z).number(),
            target,
            sum: V3 { x: 0, y: 0, z: 0 },
            taken: 0,
        }
    }

    /// Whether a cell acts on the target as one mass.
    pub(crate) fn accepts(&self, params: &Params, cell: &CellView<'_>) -> bool
        requires params { AreInRange params.now }
        requires target { IsInBox self.now.target }
        requires key { self.now.key ≡ morton_key self.now.target }
        ensures { result ≡ by_angle params.now self.now.target cell.now.key cell.now.centre }
    {
        let key = cell.key();
        self.accepts_at(params, key, key.level(), &cell.centre())
    }

    /// Whether the cell with a key, its level and a centre of mass acts on the target as one mass.
    pub(crate) fn accepts_at(&self, params: &Params, key: Key, level: u32, centre: &At) -> bool
        requires params { AreInRange params.now }
        requires target { IsInBox self.now.target }
        requires key { self.now.key ≡ morton_key self.now.target }
        requires level { level ≡ level_of key }
        requires centre { IsInBox centre.now }
        ensures { result ≡ by_angle params.now self.now.target key centre.now }
    {
        let number = key.number();
        let inside = self.key >> (OCTANT_BITS * (DEEPEST_LEVEL - level)) == number;
        !opens(params, &self.target, level, centre, inside)
    }

    /// Adds the pull of a mass at `centre`, where with it no more than `most` is taken.
    #[inline(always)]
    pub(crate) fn add(&mut self, params: &Params, most: u64, mass: u64, centre: &At) -> bool
        requires params { AreInRange params.now }
        requires target { IsInBox self.old.target }
        requires centre { IsInBox centre.now }
        requires gm { params.now.grav * most < gm_limit }
        requires range { IsAtMost (params.now.grav * self.old.taken) self.old.sum }
        ensures added { IsTrue result
            → Adds params.now (term.Cell mass centre.now ∷ []) self.old self.new }
        ensures refused { result ≡ false → most < self.old.taken + mass }
        ensures same { result ≡ false → self.new ≡ self.old }
        ensures within { IsTrue result → self.new.taken ≤ most }
        ensures range { IsAtMost (params.now.grav * self.new.taken) self.new.sum }
    {
        if mass > most || self.taken > most - mass {
            return false;
        }
        let more = pull(params, &self.target, mass, centre);
        self.sum = plus(self.sum, more);
        self.taken += mass;
        true
    }

    /// Adds the pulls of the bodies of a page from an index on up to another, one by one, where each is a
    /// body and no more than `most` is taken.
    pub(crate) fn add_bodies(
        &mut self,
        params: &Params,
        most: u64,
        page: &BodyPage<'_>,
        from: u64,
        end: u64,
    ) -> bool
        requires params { AreInRange params.now }
        requires target { IsInBox self.old.target }
        requires gm { params.now.grav * most < gm_limit }
        requires range { IsAtMost (params.now.grav * self.old.taken) self.old.sum }
        requires from { from ≤ end }
        requires end { end ≤ record_count page.now }
        ensures added { IsTrue result
            → Adds params.now (page_terms page.now from end) self.old self.new }
        ensures refused { result ≡ false
            → ((i : ℕ) × (from ≤ i) × (i < end) × ¬ IsBodyRecord (body_record i page.now))
            ⊎ (most < self.old.taken + sum_by term_mass (page_terms page.now from end)) }
        ensures target { self.new.target ≡ self.old.target }
        ensures key { self.new.key ≡ self.old.key }
        ensures within { self.old.taken ≤ most → self.new.taken ≤ most }
        ensures range { IsAtMost (params.now.grav * self.new.taken) self.new.sum }
    {
        for i in from..end {
            let Some(body) = page.body(i) else {
                return false;
            };
            if !self.add(params, most, u64::from(body.mass), &body.at) {
                return false;
            }
        }
        true
    }
}

/// The sum of two vectors.
fn plus(a: V3, b: V3) -> V3
    requires a { IsBelow gm_limit a }
    requires b { IsBelow gm_limit b }
    ensures { result ≡ plus a b }
{
    V3 {
        x: a.x + b.x,
        y: a.y + b.y,
        z: a.z + b.z,
    }
}
