//! The opening criterion.

ghost use Rattle.std.specs.Prelude.{◌≡◌, ◌*◌, ◌^◌, ◌≤◌, ◌≢◌, ◌||◌, not, unsigned_abs, IsTrue, IfSome, None};
ghost use Rattle.nb_model.specs.Limits.{box_side, deepest_level};
ghost use Rattle.nb_model.specs.Octree.{cell_side};
ghost use Rattle.nb_model.specs.Gravity.{is_far};
ghost use Rattle.nb_model.specs.Vector.{nearest_displacement, norm_squared, square};
ghost use Rattle.nb_model.specs.Valid.{AreInRange, IsInBox};

use crate::distance::{nearest_displacement, norm_squared};
use nb_model::{At, BOX_BITS, Edge, Params, V3};

/// Where each axis of a displacement is at most so long, 64 bits hold its squared length.
const NEAR: i64 = 1 << 31;

#[inline(always)]
fn is_near(d: i64) -> bool
    ensures { IsTrue result → unsigned_abs d ≤ 2 ^ 31 }
{
    -NEAR <= d && d < NEAR
}

/// The square of a difference that is near.
#[inline(always)]
fn near_square(d: i64) -> u64
    requires { unsigned_abs d ≤ 2 ^ 31 }
    ensures value { result ≡ square d }
    ensures bound { result ≤ 2 ^ 62 }
{
    let distance = d.unsigned_abs();
    distance * distance
}

/// The squared length of a displacement that is near on each axis, and None for others.
#[inline(always)]
fn near_norm(d: &V3) -> Option<u64>
    ensures value { IfSome result (λ norm. norm ≡ norm_squared d.now) }
    ensures x { result ≢ None → unsigned_abs d.now.x ≤ 2 ^ 31 }
    ensures y { result ≢ None → unsigned_abs d.now.y ≤ 2 ^ 31 }
    ensures z { result ≢ None → unsigned_abs d.now.z ≤ 2 ^ 31 }
{
    if is_near(d.x) & is_near(d.y) & is_near(d.z) {
        return Some(near_square(d.x) + near_square(d.y) + near_square(d.z));
    }
    None
}

/// The squared distance of two positions, or in a box that wraps of the first one and the nearest image of the
/// second, times this factor.
#[inline(always)]
fn scaled_distance(edge: Edge, from: &At, to: &At, factor: u64) -> u128
    requires from { IsInBox from.now }
    requires to { IsInBox to.now }
    requires factor { factor ≤ 2 ^ 30 }
    ensures { result ≡ norm_squared (nearest_displacement edge from.now to.now) * factor }
{
    // Where the two are near, no other image is nearer, whatever the edge.
    if let Some(norm) = near_norm(&nearest_displacement(Edge::Open, from, to)) {
        return u128::from(norm) * u128::from(factor);
    }
    norm_squared(&nearest_displacement(edge, from, to)) * u128::from(factor)
}

/// The side of a cell at this level, in box units, times this factor.
#[inline(always)]
fn scaled_side(level: u32, factor: u64) -> u64
    requires level { level ≤ deepest_level }
    requires factor { factor ≤ 2 ^ 15 }
    ensures value { result ≡ cell_side level * factor }
    ensures bound { result ≤ box_side * 2 ^ 15 }
{
    factor << (BOX_BITS - level)
}

/// Whether a cell at this level, with this centre of mass, is opened for a body at `from`, and not taken as
/// one mass (Barnes and Hut 1986). `inside` says whether the cell holds `from`: such a cell is always opened.
pub fn opens(params: &Params, from: &At, level: u32, centre: &At, inside: bool) -> bool
    requires params { AreInRange params.now }
    requires from { IsInBox from.now }
    requires level { level ≤ deepest_level }
    requires centre { IsInBox centre.now }
    ensures { result ≡ (inside || not (is_far params.now from.now level centre.now)) }
{
    let far = scaled_distance(
        params.edge,
        from,
        centre,
        params.theta_num * params.theta_num,
    );
    let reach = u128::from(scaled_side(level, params.theta_den));
    inside | (far <= reach * reach)
}
