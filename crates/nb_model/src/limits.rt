//! The limits of a run, as numbers for the code. The definitions have them in `specs/Limits`.

/// The side of the box is 2 to this power, in box units.
pub const BOX_BITS: u32 = 40;

/// The side of the box, in box units: each coordinate of a position is below it.
pub const BOX_SIDE: u64 = 1 << BOX_BITS;

/// Half of that side, in box units.
pub const HALF_BOX: u64 = BOX_SIDE / 2;

/// The level of the smallest cells, which are never divided. The root cell, at level 0, is the box.
pub const DEEPEST_LEVEL: u32 = 21;

/// The constant of gravity times the mass of all bodies is below this.
pub const GM_LIMIT: u64 = 1 << 60;

/// A half kick is below this on each axis, in box units a tick.
pub const KICK_LIMIT: u64 = 1 << 60;

/// The speed of an unescaped body is below this on each axis, in box units a tick.
pub const SPEED_LIMIT: u64 = 1 << 61;

/// The most bodies of a list.
pub const MOST_BODIES: u64 = 1 << 24;

/// The most ticks of a run.
pub const MOST_TICKS: u64 = 1 << 40;
