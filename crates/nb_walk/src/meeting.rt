//! What tallies take of a page that all their walks look at.

ghost use Rattle.std.specs.Prelude.{◌≡◌, ℕ, ◌+◌, ◌*◌, ◌<◌, ◌≤◌, ◌⊎◌, true, false, IsTrue, None, Some, [], ◌∷◌, length, get_or, sum_by, All};
ghost use Rattle.nb_model.specs.Limits.{gm_limit};
ghost use Rattle.nb_model.specs.Valid.{AreInRange, IsInBox};
ghost use Rattle.nb_record.specs.Pages.{record_count};
ghost use Rattle.nb_record.specs.Records.{body_record, IsBodyRecord, IsCell};
ghost use Rattle.nb_walk.specs.declared.tally.Tally.{Tally as Tallies};
ghost use Rattle.nb_walk.specs.declared.term.Term.TheVariants as term;
ghost use Rattle.nb_walk.specs.Angle.{by_angle};
ghost use Rattle.nb_walk.specs.Group.{Meets, AddsTo};
ghost use Rattle.nb_walk.specs.Part.{IsTally, KeepsTally};
ghost use Rattle.nb_walk.specs.Running.{Each, EachAt};
ghost use Rattle.nb_walk.specs.Shared.{is_left_to, IsShared};
ghost use Rattle.nb_walk.specs.Taking.{page_terms};
ghost use Rattle.nb_walk.specs.Terms.{term_mass};

use crate::shared::{BLOCK, SharedItem, has, with};
use crate::tally::Tally;
use nb_model::{At, Params};
use nb_record::{BodyPage, CellView};

/// Has the walks that share an item meet its cell: each takes it as one mass, where it is far enough. Answers
/// the set of those that open it, or None where one would take more than `most`.
pub(crate) fn meet_cell(
    tallies: &mut [Tally],
    entry: &SharedItem,
    params: &Params,
    most: u64,
    cell: &CellView<'_>,
) -> Option<u64>
    requires params { AreInRange params.now }
    requires gm { params.now.grav * most < gm_limit }
    requires tallies { All (IsTally params.now) tallies.old }
    requires shared { IsShared (length tallies.old) entry.now }
    ensures count { length tallies.new ≡ length tallies.old }
    ensures kept { Each (KeepsTally params.now most) (length tallies.old) tallies.old tallies.new }
    ensures met { (opened : ℕ) → result ≡ Some opened → EachAt (λ i. Meets params.now cell.now
        (is_left_to i entry.now)
        (is_left_to i (record { item = entry.now.item; block = entry.now.block; walks = opened })))
        (length tallies.old) tallies.old tallies.new }
    ensures some { (opened : ℕ) → result ≡ Some opened → (opened ≡ 0)
        ⊎ ((i : ℕ) × (i < length tallies.old)
        × (is_left_to i (record { item = entry.now.item; block = entry.now.block; walks = opened }) ≡ true)) }
    ensures inside { (opened i : ℕ) → result ≡ Some opened
        → is_left_to i (record { item = entry.now.item; block = entry.now.block; walks = opened }) ≡ true
        → i < length tallies.old }
    ensures refused { result ≡ None → (i : ℕ) × (i < length tallies.old) × (is_left_to i entry.now ≡ true)
        × ((d : Tallies) → (by_angle params.now (get_or tallies.old i d).target cell.now.key cell.now.centre ≡ true)
        × (most < (get_or tallies.old i d).taken + cell.now.mass)) }
{
    let key = cell.key();
    let level = key.level();
    let mass = cell.mass();
    let centre = cell.centre();
    let first = entry.block * BLOCK;
    let end = tallies.len().min(first + BLOCK);
    let mut opened = 0;
    for i in first..end {
        let k = i - first;
        if has(entry.walks, k) {
            if !tallies[i].accepts_at(params, key, level, &centre) {
                opened = with(opened, k);
            } else if !tallies[i].add(params, most, mass, &centre) {
                return None;
            }
        }
    }
    Some(opened)
}

/// Adds the pull of a mass to the walks that share an item, where with it none takes more than `most`.
fn pull_each(
    tallies: &mut [Tally],
    entry: &SharedItem,
    params: &Params,
    most: u64,
    mass: u64,
    centre: &At,
) -> bool
    requires params { AreInRange params.now }
    requires gm { params.now.grav * most < gm_limit }
    requires centre { IsInBox centre.now }
    requires tallies { All (IsTally params.now) tallies.old }
    requires shared { IsShared (length tallies.old) entry.now }
    ensures count { length tallies.new ≡ length tallies.old }
    ensures kept { Each (KeepsTally params.now most) (length tallies.old) tallies.old tallies.new }
    ensures added { IsTrue result → EachAt (λ i. AddsTo params.now (is_left_to i entry.now)
        (term.Cell mass centre.now ∷ [])) (length tallies.old) tallies.old tallies.new }
    ensures refused { result ≡ false → (i : ℕ) × (i < length tallies.old) × (is_left_to i entry.now ≡ true)
        × ((d : Tallies) → most < (get_or tallies.old i d).taken + mass) }
{
    let first = entry.block * BLOCK;
    let end = tallies.len().min(first + BLOCK);
    for i in first..end {
        if has(entry.walks, i - first) && !tallies[i].add(params, most, mass, centre) {
            return false;
        }
    }
    true
}

/// Adds the pulls of the bodies of a page from an index on up to another, one by one, to the walks that share
/// an item, where each is a body and none takes more than `most`.
pub(crate) fn meet_bodies(
    tallies: &mut [Tally],
    entry: &SharedItem,
    params: &Params,
    most: u64,
    page: &BodyPage<'_>,
    from: u64,
    end: u64,
) -> bool
    requires params { AreInRange params.now }
    requires gm { params.now.grav * most < gm_limit }
    requires from { from ≤ end }
    requires end { end ≤ record_count page.now }
    requires tallies { All (IsTally params.now) tallies.old }
    requires shared { IsShared (length tallies.old) entry.now }
    ensures count { length tallies.new ≡ length tallies.old }
    ensures kept { Each (KeepsTally params.now most) (length tallies.old) tallies.old tallies.new }
    ensures added { IsTrue result → EachAt (λ i. AddsTo params.now (is_left_to i entry.now)
        (page_terms page.now from end)) (length tallies.old) tallies.old tallies.new }
    ensures refused { result ≡ false
        → ((i : ℕ) × (from ≤ i) × (i < end) × ¬ IsBodyRecord (body_record i page.now))
        ⊎ ((i : ℕ) × (i < length tallies.old) × (is_left_to i entry.now ≡ true)
        × ((d : Tallies) → most < (get_or tallies.old i d).taken
        + sum_by term_mass (page_terms page.now from end))) }
{
    for at in from..end {
        let Some(body) = page.body(at) else {
            return false;
        };
        if !pull_each(tallies, entry, params, most, u64::from(body.mass), &body.at) {
            return false;
        }
    }
    true
}
