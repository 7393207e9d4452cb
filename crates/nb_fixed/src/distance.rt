//! Differences of positions and their squared lengths.

ghost use Rattle.std.specs.Prelude.{◌≡◌, ◌+◌, ◌*◌, ◌^◌, ◌<◌, pos, ◌-ℤ◌, unsigned_abs, ℤ};
ghost use Rattle.nb_model.specs.Limits.{box_side};
ghost use Rattle.nb_model.specs.Vector.{nearest_along, nearest_displacement, norm_squared, square};
ghost use Rattle.nb_model.specs.Valid.{IsInBox, IsBelow};

use nb_model::{At, BOX_BITS, Edge, V3};

/// How many bits of a word a coordinate leaves.
const UNUSED_BITS: u32 = 64 - BOX_BITS;

/// The difference of two coordinates, or in a box that wraps the one to the nearest image.
#[inline(always)]
fn nearest_along(edge: Edge, from: u64, to: u64) -> i64
    requires from { from < box_side }
    requires to { to < box_side }
    ensures value { result ≡ nearest_along edge (pos to -ℤ pos from) }
    ensures bound { unsigned_abs result < box_side }
{
    match edge {
        Edge::Open => to as i64 - from as i64,
        // The highest bit of a coordinate becomes the sign: from half a box on, the other side is nearer.
        Edge::Wrap => (to as i64 - from as i64) << UNUSED_BITS >> UNUSED_BITS,
    }
}

/// From the first position to the second, or in a box that wraps to its nearest image.
#[inline(always)]
pub fn nearest_displacement(edge: Edge, from: &At, to: &At) -> V3
    requires from { IsInBox from.now }
    requires to { IsInBox to.now }
    ensures value { result ≡ nearest_displacement edge from.now to.now }
    ensures bound { IsBelow box_side result }
{
    V3 {
        x: nearest_along(edge, from.x, to.x),
        y: nearest_along(edge, from.y, to.y),
        z: nearest_along(edge, from.z, to.z),
    }
}

#[inline(always)]
fn square(d: i64) -> u128
    requires { unsigned_abs d < box_side }
    ensures value { result ≡ square d }
    ensures bound { result < 2 ^ 80 }
{
    let distance = u128::from(d.unsigned_abs());
    distance * distance
}

/// The squared length of a displacement in the box, in squared box units.
#[inline(always)]
pub fn norm_squared(d: &V3) -> u128
    requires { IsBelow box_side d.now }
    ensures value { result ≡ norm_squared d.now }
    ensures bound { result < 3 * 2 ^ 80 }
{
    square(d.x) + square(d.y) + square(d.z)
}
