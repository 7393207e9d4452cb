//! A pull without a division. A table and one step of Newton's give the inverse of a root, and that the pull
//! along each axis. No bound on the error of such an estimate is known here: whole-number tests say whether
//! it settles the root and the quotients, and where they fail nothing is answered.

ghost use Rattle.std.specs.Prelude.{◌≡◌, ◌+◌, ◌-◌, ◌*◌, ◌/◌, ◌^◌, ◌<◌, ◌≤◌, unsigned_abs, IfSome};
ghost use Rattle.nb_model.specs.Limits.{gm_limit};
ghost use Rattle.nb_model.specs.Root.{integer_root};
ghost use Rattle.nb_model.specs.Gravity.{pull_along};
ghost use Rattle.nb_model.specs.Vector.{norm_squared};

use crate::inverse_root::{checked_root, estimated_root, inverse_root};
use nb_model::V3;

/// An estimate's floor may be so much too low.
const SLACK: u64 = 8;

/// A floor is below this, so that no product of the tests overflows.
const FLOOR_LIMIT: u64 = (1 << 20) - SLACK;

/// The softened square times its root, shifted up.
#[derive(Drop)]
struct Divisor {
    square: u64,
    root: u64,
    half_shift: u32,
    /// About 2^63 over the root of the shifted square.
    inverse: u64,
    /// The highest bits of the product.
    high: u64,
    ghost root_of_square: { root ≡ integer_root square },
    ghost low: { high * 2 ^ 52 ≤ square * root * 2 ^ (3 * half_shift) },
    ghost next: { square * root * 2 ^ (3 * half_shift) ≤ (high + 4097) * 2 ^ 52 },
    ghost limit: { high ≤ 2 ^ 44 - 2 ^ 13 },
    ghost half: { half_shift ≤ 32 },
}

/// GM shifted up.
#[derive(Drop)]
struct Dividend {
    gm: u64,
    shift: u32,
    /// The highest 32 bits.
    high: u64,
    ghost low: { high * 2 ^ 32 ≤ gm * 2 ^ shift },
    ghost next: { gm * 2 ^ shift < (high + 1) * 2 ^ 32 },
    ghost limit: { high < 2 ^ 32 },
    ghost some: { shift ≤ 64 },
}

/// GM over the softened square times its root: from `floor` to `floor` and `SLACK` over 2^`shift`.
#[derive(Drop)]
struct Ratio {
    gm: u64,
    square: u64,
    root: u64,
    floor: u64,
    shift: u32,
    ghost root_of_square: { root ≡ integer_root square },
    ghost low: { floor * (square * root) ≤ gm * 2 ^ shift },
    ghost next: { gm * 2 ^ shift < (floor + 8) * (square * root) },
    ghost bits: { shift < 64 },
    ghost limit: { floor < 2 ^ 20 },
    ghost square_limit: { square < gm_limit },
}

#[inline(always)]
fn divisor_of(square: u64) -> Option<Divisor>
    requires { 1 ≤ square }
    ensures { IfSome result (λ d. d.square ≡ square) }
{
    let half_shift = square.leading_zeros() / 2;
    let n = square << (2 * half_shift);
    let inverse = inverse_root(n);
    let root = checked_root(square, estimated_root(square, n, half_shift, inverse))?;
    let high = ((n >> 32) * (root << half_shift)) >> 20;
    Some(Divisor {
        square,
        root,
        half_shift,
        inverse,
        high,
    })
}

#[inline(always)]
fn dividend_of(gm: u64) -> Dividend
    requires { 1 ≤ gm }
    ensures { result.gm ≡ gm }
{
    let shift = gm.leading_zeros();
    Dividend {
        gm,
        shift,
        high: (gm << shift) >> 32,
    }
}

/// About the ratio's floor.
#[inline(always)]
fn estimated_floor(dividend: &Dividend, divisor: &Divisor) -> u64 {
    let inverse = divisor.inverse;
    let cube = (inverse.wrapping_mul(inverse) >> 32).wrapping_mul(inverse) >> 32;
    (dividend.high.wrapping_mul(cube) >> 44).wrapping_sub(1)
}

#[inline(always)]
fn ratio_of(gm: u64, square: u64) -> Option<Ratio>
    requires gm { 1 ≤ gm }
    requires some { 1 ≤ square }
    requires square { square < gm_limit }
    ensures gm { IfSome result (λ r. r.gm ≡ gm) }
    ensures square { IfSome result (λ r. r.square ≡ square) }
{
    let divisor = divisor_of(square)?;
    let dividend = dividend_of(gm);
    let floor = estimated_floor(&dividend, &divisor);
    let shift = (49 + dividend.shift).wrapping_sub(3 * divisor.half_shift);
    if shift >= 64 || floor >= FLOOR_LIMIT {
        return None;
    }
    if floor * (divisor.high + 4097) > dividend.high << 29 {
        return None;
    }
    if (dividend.high + 1) << 29 > (floor + SLACK) * divisor.high {
        return None;
    }
    Some(Ratio {
        gm,
        square,
        root: divisor.root,
        floor,
        shift,
    })
}

/// The size of the pull along an axis at this distance, where the ratio settles it.
#[inline(always)]
fn size_along(ratio: &Ratio, distance: u64) -> Option<u64>
    requires { distance * distance ≤ ratio.now.square }
    ensures value { IfSome result (λ size. size
        ≡ ratio.now.gm * distance / (ratio.now.square * ratio.now.root)) }
    ensures bound { IfSome result (λ size. size < 2 ^ 50) }
{
    let low = distance * ratio.floor;
    let size = low >> ratio.shift;
    if (low + SLACK * ratio.root) >> ratio.shift == size {
        return Some(size);
    }
    None
}

/// The pull along an axis, where the ratio settles it.
#[inline(always)]
fn along(ratio: &Ratio, difference: i64) -> Option<i64>
    requires { unsigned_abs difference * unsigned_abs difference ≤ ratio.now.square }
    ensures { IfSome result (λ pull. pull ≡ pull_along ratio.now.gm ratio.now.square difference) }
{
    let size = size_along(ratio, difference.unsigned_abs())? as i64;
    Some(if difference < 0 { -size } else { size })
}

/// The pull by this GM at this displacement, whose softened square is `square`, where an estimate settles it.
#[inline(always)]
pub fn estimated_pull(gm: u64, square: u64, displacement: &V3) -> Option<V3>
    requires gm { 1 ≤ gm }
    requires some { 1 ≤ square }
    requires square { square < gm_limit }
    requires part { norm_squared displacement.now ≤ square }
    ensures x { IfSome result (λ pull. pull.x ≡ pull_along gm square displacement.now.x) }
    ensures y { IfSome result (λ pull. pull.y ≡ pull_along gm square displacement.now.y) }
    ensures z { IfSome result (λ pull. pull.z ≡ pull_along gm square displacement.now.z) }
{
    let ratio = ratio_of(gm, square)?;
    Some(V3 {
        x: along(&ratio, displacement.x)?,
        y: along(&ratio, displacement.y)?,
        z: along(&ratio, displacement.z)?,
    })
}
