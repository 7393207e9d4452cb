//! The integer square root, by Zimmermann's Karatsuba square root (1999): a table gives the root of the 16
//! highest bits, and one division doubles the bits of a root.

ghost use Rattle.std.specs.Prelude.{◌≡◌, ◌+◌, ◌*◌, ◌^◌, ◌<◌, ◌≤◌};
ghost use Rattle.nb_model.specs.Root.{integer_root, IsIntegerRoot};

use crate::inverse_root::{checked_root, estimated_root, inverse_root};

/// From which high byte on the table goes: a number is shifted up until its high byte is at least this.
const FIRST_BYTE: u64 = 64;

/// From which number of 64 bits on one of the two highest is set.
const FIRST_WORD: u64 = 1 << 62;

/// The base of the last digit, where a number has more than 64 bits.
const LAST_BASE: u64 = 1 << 32;

/// For each high byte from `FIRST_BYTE` on, the root of the greatest number of 16 bits that has it.
#[rattlefmt::skip]
const ROOTS: [u8; 192] = [
    128, 129, 130, 131, 132, 133, 134, 135, 136, 137, 138, 139, 140, 141, 142, 143,
    143, 144, 145, 146, 147, 148, 149, 150, 150, 151, 152, 153, 154, 155, 155, 156,
    157, 158, 159, 159, 160, 161, 162, 163, 163, 164, 165, 166, 167, 167, 168, 169,
    170, 170, 171, 172, 173, 173, 174, 175, 175, 176, 177, 178, 178, 179, 180, 181,
    181, 182, 183, 183, 184, 185, 185, 186, 187, 187, 188, 189, 189, 190, 191, 191,
    192, 193, 193, 194, 195, 195, 196, 197, 197, 198, 199, 199, 200, 201, 201, 202,
    203, 203, 204, 204, 205, 206, 206, 207, 207, 208, 209, 209, 210, 211, 211, 212,
    212, 213, 214, 214, 215, 215, 216, 217, 217, 218, 218, 219, 219, 220, 221, 221,
    222, 222, 223, 223, 224, 225, 225, 226, 226, 227, 227, 228, 229, 229, 230, 230,
    231, 231, 232, 232, 233, 234, 234, 235, 235, 236, 236, 237, 237, 238, 238, 239,
    239, 240, 241, 241, 242, 242, 243, 243, 244, 244, 245, 245, 246, 246, 247, 247,
    248, 248, 249, 249, 250, 250, 251, 251, 252, 252, 253, 253, 254, 254, 255, 255,
];

/// The root of a number, and what its square leaves of the number: at most twice the root.
#[derive(Clone, Copy)]
struct Rooted {
    root: u64,
    rest: u64,
    ghost is_root: { rest ≤ 2 * root },
}

/// The table's root for a high byte.
fn root_of_byte(byte: u64) -> u64
    requires low { FIRST_BYTE ≤ byte }
    requires high { byte < 256 }
    ensures some { 128 ≤ result }
    ensures square { result * result ≤ 256 * byte + 255 }
    ensures next_square { 256 * byte + 255 < (result + 1) * (result + 1) }
{
    u64::from(ROOTS[(byte - FIRST_BYTE) as usize])
}

/// The root, or one less where `square` is more than the `rest` that is left for it.
fn settled(root: u64, rest: u64, square: u64) -> Rooted
    requires root { 1 ≤ root }
    requires fits { root < 2 ^ 60 }
    requires rest { rest ≤ 2 * root }
    requires square { square < rest + 2 * root }
    ensures { result.root * result.root + result.rest + square ≡ root * root + rest }
{
    if square <= rest {
        return Rooted {
            root,
            rest: rest - square,
        };
    }
    Rooted {
        root: root - 1,
        rest: rest + (2 * root - 1) - square,
    }
}

/// The root of a number of 16 bits with one of its two highest bits set.
fn rooted_16(n: u64) -> Rooted
    requires low { 2 ^ 14 ≤ n }
    requires high { n < 2 ^ 16 }
    ensures { result.root * result.root + result.rest ≡ n }
{
    let root = root_of_byte(n >> 8);
    let square = root * root;
    if square <= n {
        return Rooted {
            root,
            rest: n - square,
        };
    }
    Rooted {
        root: root - 1,
        rest: n + (2 * root - 1) - square,
    }
}

/// One digit more: from the root of a number to that of the number with two more digits `low` in the given
/// base, where the root has as many bits as the base. The digit is the quotient by twice the root, or one
/// less.
#[inline(always)]
fn with_digit(high: Rooted, low: u64, base: u64) -> Rooted
    requires base { base ≤ 2 ^ 16 }
    requires bits { base ≤ 2 * high.root }
    requires root { high.root < base }
    requires low { low < base * base }
    ensures { result.root * result.root + result.rest
        ≡ (high.root * high.root + high.rest) * (base * base) + low }
{
    // The divisor is twice the root. The dividend's last bit is put aside, so that 32 bits hold the others.
    let dividend = high.rest * base + low / base;
    let half = (dividend / 2) as u32;
    let divisor = high.root as u32;
    let digit = (half / divisor) as u64;
    let over = 2 * (half % divisor) as u64 + dividend % 2;
    settled(
        high.root * base + digit,
        over * base + low % base,
        digit * digit,
    )
}

/// The root of a number of 64 bits with one of its two highest bits set.
fn rooted_64(n: u64) -> Rooted
    requires { 2 ^ 62 ≤ n }
    ensures value { result.root * result.root + result.rest ≡ n }
{
    let quarter = rooted_16(n >> 48);
    let half = with_digit(quarter, (n >> 32) % (1 << 16), 1 << 8);
    with_digit(half, n % (1 << 32), 1 << 16)
}

/// The root of a number of 64 bits.
pub fn root_of_word(q: u64) -> u64
    ensures { result ≡ integer_root q }
{
    // To shift a number by twice as many bits is to shift its root.
    let half_shift = q.leading_zeros() / 2 % 32;
    let n = q << (2 * half_shift);
    if n < FIRST_WORD {
        // Only 0 can't be shifted up.
        return 0;
    }
    let estimate = estimated_root(q, n, half_shift, inverse_root(n));
    if let Some(root) = checked_root(q, estimate) {
        return root;
    }
    rooted_64(n).root >> half_shift
}

/// One digit more, in base `LAST_BASE`, as in `with_digit`. Nothing has to be left of the number.
fn with_last_digit(high: Rooted, low: u64) -> u64
    requires bits { 2 ^ 31 ≤ high.root }
    requires root { high.root < 2 ^ 32 }
    requires fits { (high.root * high.root + high.rest) * 2 ^ 64 + low < 2 ^ 128 }
    ensures square { result * result ≤ (high.root * high.root + high.rest) * 2 ^ 64 + low }
    ensures next_square { (high.root * high.root + high.rest) * 2 ^ 64 + low < (result + 1) * (result + 1) }
{
    let half = high.rest * (LAST_BASE / 2) + low / (2 * LAST_BASE);
    let digit = half / high.root;
    let over = 2 * (half % high.root) + low / LAST_BASE % 2;
    let root = high.root as u128 * LAST_BASE as u128 + digit as u128;
    let rest = over as u128 * LAST_BASE as u128 + (low % LAST_BASE) as u128;
    if digit as u128 * digit as u128 <= rest {
        root as u64
    } else {
        (root - 1) as u64
    }
}

/// The root of a number of more than 64 bits.
fn root_of_wide(q: u128) -> u64
    requires { 2 ^ 64 ≤ q }
    ensures { result ≡ integer_root q }
{
    let half_shift = q.leading_zeros() / 2;
    let n = q << (2 * half_shift);
    with_last_digit(rooted_64((n >> 64) as u64), (n % (1 << 64)) as u64) >> half_shift
}

/// The greatest number whose square is at most `q`.
pub fn root(q: u128) -> u64
    ensures definition { result ≡ integer_root q }
    ensures root { IsIntegerRoot q result }
{
    if q >> 64 == 0 {
        root_of_word(q as u64)
    } else {
        root_of_wide(q)
    }
}
