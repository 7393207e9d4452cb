//! A body, its position and its velocity.

ghost use Rattle.std.specs.Prelude.{◌↔◌, ℕ, IsTrue};
ghost use Rattle.nb_model.specs.Valid.{IsInBox, IsBelow, IsValidBody};

use crate::limits::{BOX_SIDE, SPEED_LIMIT};

/// A position: three coordinates in box units. The box is the cube of the positions whose coordinates are
/// below 2^40.
#[derive(Clone, Copy, PartialEq, Eq, Debug)]
pub struct At {
    pub x: u64,
    pub y: u64,
    pub z: u64,
}

impl At {
    /// Whether each coordinate is below the side of the box.
    pub fn is_in_box(&self) -> bool
        ensures { IsTrue result ↔ IsInBox self.now }
    {
        self.x < BOX_SIDE && self.y < BOX_SIDE && self.z < BOX_SIDE
    }
}

/// A vector: a velocity in box units a tick, or a change of one.
#[derive(Clone, Copy, PartialEq, Eq, Debug)]
pub struct V3 {
    pub x: i64,
    pub y: i64,
    pub z: i64,
}

impl V3 {
    /// Whether each axis is, in size, below the limit.
    pub fn is_below(&self, limit: u64) -> bool
        ensures { IsTrue result ↔ IsBelow limit self.now }
    {
        self.x.unsigned_abs() < limit
            && self.y.unsigned_abs() < limit
            && self.z.unsigned_abs() < limit
    }
}

/// A body of the run. One that is `out` neither pulls nor moves any more.
#[derive(Clone, Copy, PartialEq, Eq, Debug)]
pub struct Body {
    /// The body's name: the ids of a list rise strictly.
    pub id: u64,
    /// The mass, from 1 on.
    pub mass: u32,
    /// Whether the body is out: it has left the box, or was too fast for a box that wraps.
    pub out: bool,
    /// The position, in box units.
    pub at: At,
    /// The velocity, in box units a tick.
    pub v: V3,
}

impl Body {
    /// Whether the mass, the position and, of a body that isn't out, the velocity are in their ranges.
    pub fn is_valid(&self) -> bool
        ensures { IsTrue result ↔ IsValidBody self.now }
    {
        1 <= self.mass && self.at.is_in_box() && (self.out || self.v.is_below(SPEED_LIMIT))
    }
}
