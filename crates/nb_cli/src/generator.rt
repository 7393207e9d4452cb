//! The bodies and the parameters that are made of a seed.

ghost use Rattle.std.specs.Prelude.{◌≡◌, ◌+◌, ◌<◌, ◌≤◌, ℕ, unsigned_abs};
ghost use Rattle.nb_model.specs.Limits.{most_bodies, box_side};
ghost use Rattle.nb_model.specs.Valid.{AreInRange, IsValidBody};
ghost use Rattle.nb_cli.specs.Make.{coordinate_of, velocity_of, body_at, made_params as params_made};
ghost use Rattle.rand_xoshiro.specs.SplitMix64.{mix_u64};

use nb_model::{At, Body, Edge, GM_LIMIT, HALF_BOX, Params, V3};
use rand_xoshiro::SplitMix64;
use rand_xoshiro::rand_core::{Rng, SeedableRng};

/// Masses are from 1 to this.
const MOST_MASS: u64 = 1000;

/// How far from the middle of the box a body can be on an axis, in box units.
const REACH: u64 = 1 << 25;

/// A word of 64 bits is shifted right by so much, for a coordinate within 2 `REACH`.
const COORDINATE_SHIFT: u32 = 38;

/// A word of 64 bits is shifted right by so much, for a velocity within 2 `MOST_SPEED`.
const VELOCITY_SHIFT: u32 = 52;

/// The greatest speed on an axis, in box units a tick.
const MOST_SPEED: i64 = 2048;

/// The generator of bodies, SplitMix64 (Steele, Lea and Flood 2014), and how many it has made.
#[derive(Drop)]
pub(crate) struct Generator {
    rng: SplitMix64,
    index: u64,
}

impl Generator {
    ghost use Rattle.nb_cli.specs.Generator.{IsAtState, HasGenerated};

    /// The generator of this seed.
    pub(crate) fn new(seed: u64) -> Generator
        ensures { HasGenerated seed 0 result }
    {
        Generator {
            rng: SplitMix64::from_seed(seed.to_le_bytes()),
            index: 0,
        }
    }

    /// The next body.
    pub(crate) fn next_body(&mut self) -> Body
        requires { self.old.index < most_bodies }
        ensures body { (seed n : ℕ) → HasGenerated seed n self.old → result ≡ body_at seed n }
        ensures moved { (seed n : ℕ) → HasGenerated seed n self.old → HasGenerated seed (n + 1) self.new }
        ensures index { self.new.index ≡ self.old.index + 1 }
        ensures id { result.id ≡ self.old.index + 1 }
        ensures valid { IsValidBody result }
    {
        let mass = 1 + self.rng.next_u64() % MOST_MASS;
        let at = At {
            x: self.coordinate(),
            y: self.coordinate(),
            z: self.coordinate(),
        };
        let v = V3 {
            x: self.velocity(),
            y: self.velocity(),
            z: self.velocity(),
        };
        self.index += 1;
        Body {
            id: self.index,
            mass: mass as u32,
            out: false,
            at,
            v,
        }
    }

    /// A coordinate, of the next word.
    fn coordinate(&mut self) -> u64
        ensures value { (state : ℕ) → IsAtState state self.old → result ≡ coordinate_of (mix_u64 state).0 }
        ensures moved { (state : ℕ) → IsAtState state self.old → IsAtState (mix_u64 state).1 self.new }
        ensures index { self.new.index ≡ self.old.index }
        ensures there { result < box_side }
    {
        HALF_BOX - REACH + (self.rng.next_u64() >> COORDINATE_SHIFT)
    }

    /// A velocity along one axis, of the next word.
    fn velocity(&mut self) -> i64
        ensures value { (state : ℕ) → IsAtState state self.old → result ≡ velocity_of (mix_u64 state).0 }
        ensures moved { (state : ℕ) → IsAtState state self.old → IsAtState (mix_u64 state).1 self.new }
        ensures index { self.new.index ≡ self.old.index }
        ensures slow { unsigned_abs result ≤ 2048 }
    {
        (self.rng.next_u64() >> VELOCITY_SHIFT) as i64 - MOST_SPEED
    }
}

/// The parameters of so many bodies. The constant of gravity times their mass is below its limit, whatever
/// they are.
pub(crate) fn made_params(count: u64) -> Params
    requires { count ≤ most_bodies }
    ensures value { result ≡ params_made count }
    ensures in_range { AreInRange result }
{
    Params {
        grav: (GM_LIMIT - 1) / (MOST_MASS * count.max(1)),
        theta_num: 1,
        theta_den: 2,
        soft: 65536,
        leaf: 8,
        every: 10,
        edge: Edge::Open,
    }
}
