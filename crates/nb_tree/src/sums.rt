//! The exact sums of a cell's bodies.

ghost use Rattle.std.specs.Prelude.{◌≡◌, ◌+◌, ◌*◌, ◌/◌, ◌<◌, ◌≤◌};
ghost use Rattle.nb_model.specs.Limits.{most_bodies};
ghost use Rattle.nb_model.specs.Valid.{IsInBox, IsValidBody};
ghost use Rattle.nb_tree.specs.Passes.{IsSmall};

use nb_model::{At, Body};

/// The sums of some bodies, from which a cell's mass and centre follow. No sum passes 128 bits: the mass of
/// 2^24 bodies is below 2^56, and a coordinate below 2^40.
#[derive(Clone, Copy, PartialEq, Eq, Default, Debug)]
pub(crate) struct Sums {
    /// How many bodies there are.
    pub(crate) count: u64,
    /// Their mass.
    pub(crate) mass: u64,
    /// The sum of mass times x, in box units.
    pub(crate) x: u128,
    /// The sum of mass times y.
    pub(crate) y: u128,
    /// The sum of mass times z.
    pub(crate) z: u128,
}

impl Sums {
    /// The sums of no bodies.
    pub(crate) fn none() -> Sums
        ensures value { result ≡ record { count = 0; mass = 0; x = 0; y = 0; z = 0 } }
        ensures small { IsSmall result }
    {
        Sums {
            count: 0,
            mass: 0,
            x: 0,
            y: 0,
            z: 0,
        }
    }

    /// The sums of one body.
    pub(crate) fn of(body: &Body) -> Sums
        requires valid { IsValidBody body.now }
        ensures count { result.count ≡ 1 }
        ensures mass { result.mass ≡ body.now.mass }
        ensures x { result.x ≡ body.now.mass * body.now.at.x }
        ensures y { result.y ≡ body.now.mass * body.now.at.y }
        ensures z { result.z ≡ body.now.mass * body.now.at.z }
        ensures small { IsSmall result }
    {
        let mass = u128::from(body.mass);
        Sums {
            count: 1,
            mass: u64::from(body.mass),
            x: mass * u128::from(body.at.x),
            y: mass * u128::from(body.at.y),
            z: mass * u128::from(body.at.z),
        }
    }

    /// The sums of these bodies and those.
    pub(crate) fn plus(&self, other: &Sums) -> Sums
        requires small { IsSmall self.now }
        requires other { IsSmall other.now }
        requires most { self.now.count + other.now.count ≤ most_bodies }
        ensures count { result.count ≡ self.now.count + other.now.count }
        ensures mass { result.mass ≡ self.now.mass + other.now.mass }
        ensures x { result.x ≡ self.now.x + other.now.x }
        ensures y { result.y ≡ self.now.y + other.now.y }
        ensures z { result.z ≡ self.now.z + other.now.z }
        ensures small { IsSmall result }
    {
        Sums {
            count: self.count + other.count,
            mass: self.mass + other.mass,
            x: self.x + other.x,
            y: self.y + other.y,
            z: self.z + other.z,
        }
    }

    /// The centre of mass, in box units, rounded down.
    pub(crate) fn centre(&self) -> At
        requires small { IsSmall self.now }
        requires some { 0 < self.now.count }
        ensures x { result.x ≡ self.now.x / self.now.mass }
        ensures y { result.y ≡ self.now.y / self.now.mass }
        ensures z { result.z ≡ self.now.z / self.now.mass }
        ensures inside { IsInBox result }
    {
        let mass = u128::from(self.mass);
        At {
            x: (self.x / mass) as u64,
            y: (self.y / mass) as u64,
            z: (self.z / mass) as u64,
        }
    }
}
