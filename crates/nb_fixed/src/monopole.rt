//! The pull of a mass: a softened monopole.

ghost use Rattle.std.specs.Prelude.{◌≡◌, ◌+◌, ◌*◌, ◌/◌, ◌%◌, ◌^◌, ◌<◌, ◌≤◌, unsigned_abs};
ghost use Rattle.nb_model.specs.Limits.{box_side, gm_limit};
ghost use Rattle.nb_model.specs.Root.{integer_root};
ghost use Rattle.nb_model.specs.Gravity.{pull, pull_along};
ghost use Rattle.nb_model.specs.Valid.{AreInRange, IsBelow, IsInBox};
ghost use Rattle.nb_model.specs.Vector.{norm_squared};

use crate::distance::nearest_displacement;
use crate::estimate::estimated_pull;
use crate::square_root::root_of_word;
use nb_model::{At, Params, V3};

/// The inverse of a root is a part of this.
const ONE: u64 = 1 << 63;

/// The limit of GM is the square of this.
const NEAR: u64 = 1 << 30;

/// What the three axes of a pull share: the softened square with its root, and GM over that square.
#[derive(Drop)]
struct Scale {
    /// The softened square, from 1 on.
    square: u64,
    /// Its root.
    root: u64,
    /// `ONE` over the root, rounded down.
    inverse: u64,
    /// GM over the square, rounded down.
    whole: u64,
    /// GM modulo the square.
    rest: u64,
    ghost some_square: { 1 ≤ square },
    ghost root_of_square: { root ≡ integer_root square },
    ghost inverse_of_root: { inverse ≡ 2 ^ 63 / root },
    ghost part: { rest < square },
    ghost gm: { whole * square + rest < gm_limit },
}

/// A quotient and what the division leaves.
#[derive(Clone, Copy)]
struct Quotient {
    floor: u64,
    over: u64,
}

/// A number over the root, by a multiplication with its inverse (Granlund and Montgomery 1994), which gives
/// the quotient or one less.
#[inline(always)]
fn over_root(scale: &Scale, n: u64) -> Quotient
    requires { n < gm_limit }
    ensures floor { result.floor ≡ n / scale.now.root }
    ensures over { result.over ≡ n % scale.now.root }
{
    let floor = (n as u128 * scale.inverse as u128 / ONE as u128) as u64;
    let over = n - floor * scale.root;
    if over < scale.root {
        return Quotient { floor, over };
    }
    Quotient {
        floor: floor + 1,
        over: over - scale.root,
    }
}

/// The size of the pull along an axis at this distance: GM over the square, times the distance, over
/// the root.
fn size_along(scale: &Scale, distance: u64) -> u64
    requires { distance * distance ≤ scale.now.square }
    ensures value { result ≡ (scale.now.whole * scale.now.square + scale.now.rest) * distance
        / (scale.now.square * scale.now.root) }
    ensures bound { result < gm_limit }
{
    let Quotient { floor, over } = over_root(scale, scale.whole * distance);
    // The rest of GM adds one where it makes up for what is missing.
    let missing = (scale.root - over) as u128 * scale.square as u128;
    let made_up = scale.rest as u128 * distance as u128;
    if missing <= made_up { floor + 1 } else { floor }
}

/// The pull along an axis, in box units a tick.
fn along(scale: &Scale, difference: i64) -> i64
    requires { unsigned_abs difference * unsigned_abs difference ≤ scale.now.square }
    ensures { result ≡ pull_along (scale.now.whole * scale.now.square + scale.now.rest) scale.now.square
        difference }
{
    let size = size_along(scale, difference.unsigned_abs()) as i64;
    if difference < 0 { -size } else { size }
}

/// The pull by this GM at this displacement, whose softened square is `square`, by divisions.
fn divided_pull(gm: u64, square: u64, displacement: &V3) -> V3
    requires gm { gm < gm_limit }
    requires some { 1 ≤ square }
    requires part { norm_squared displacement.now ≤ square }
    ensures x { result.x ≡ pull_along gm square displacement.now.x }
    ensures y { result.y ≡ pull_along gm square displacement.now.y }
    ensures z { result.z ≡ pull_along gm square displacement.now.z }
{
    let root = root_of_word(square);
    let scale = Scale {
        square,
        root,
        inverse: ONE / root,
        whole: gm / square,
        rest: gm % square,
    };
    V3 {
        x: along(&scale, displacement.x),
        y: along(&scale, displacement.y),
        z: along(&scale, displacement.z),
    }
}

/// The pull by this GM at this displacement, whose softened square is `square`.
#[inline(never)]
fn pull_at(gm: u64, square: u64, displacement: V3) -> V3
    requires gm { gm < gm_limit }
    requires some { 1 ≤ square }
    requires near { square ≤ gm }
    requires part { norm_squared displacement ≤ square }
    ensures x { result.x ≡ pull_along gm square displacement.x }
    ensures y { result.y ≡ pull_along gm square displacement.y }
    ensures z { result.z ≡ pull_along gm square displacement.z }
{
    if let Some(kick) = estimated_pull(gm, square, &displacement) {
        return kick;
    }
    divided_pull(gm, square, &displacement)
}

/// The softened square of a displacement, or more than any GM where a part of it alone reaches their limit.
#[inline(always)]
fn near_square(d: &V3, soft: u64) -> u64
    requires d { IsBelow box_side d.now }
    ensures near { result < gm_limit → result ≡ norm_squared d.now + soft * soft }
    ensures far { gm_limit ≤ result → gm_limit ≤ norm_squared d.now + soft * soft }
{
    let x = d.x.unsigned_abs();
    let y = d.y.unsigned_abs();
    let z = d.z.unsigned_abs();
    if x >= NEAR || y >= NEAR || z >= NEAR || soft >= NEAR {
        return u64::MAX;
    }
    x * x + y * y + z * z + soft * soft
}

/// The half kick that a mass at `centre`, or in a box that wraps its nearest image, gives to a body at
/// `from`, in box units a tick.
// What most terms need stands where it is called: the others are 0.
#[inline(always)]
pub fn pull(params: &Params, from: &At, mass: u64, centre: &At) -> V3
    requires params { AreInRange params.now }
    requires from { IsInBox from.now }
    requires centre { IsInBox centre.now }
    requires gm { params.now.grav * mass < gm_limit }
    ensures { result ≡ pull params.now from.now mass centre.now }
{
    let gm = params.grav * mass;
    let displacement = nearest_displacement(params.edge, from, centre);
    let square = near_square(&displacement, params.soft);
    if square > gm {
        // Each distance is at most the root, so that each quotient is below 1.
        return V3 { x: 0, y: 0, z: 0 };
    }
    pull_at(gm, square, displacement)
}
