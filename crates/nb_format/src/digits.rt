//! Numbers in decimal: 1 to 20 digits. Leading zeros are allowed, and signs aren't.

ghost use Rattle.std.specs.Prelude.{◌≡◌, None, Some, if◌then◌else◌};
ghost use Rattle.nb_format.specs.Digits.{decimal_value, is_number as is_spelled_number, number_of as spelled_number};

use std::str;

/// The most digits of a number.
const MOST_DIGITS: usize = 20;

/// Whether a text is a number, of any value.
fn is_number(text: &[u8]) -> bool
    ensures { result ≡ is_spelled_number text.now }
{
    if text.is_empty() || text.len() > MOST_DIGITS {
        return false;
    }
    text.iter().all(|byte| byte.is_ascii_digit())
}

/// The number that a text spells, of any value: 20 digits may spell one above 2^64.
pub(crate) fn long_number_of(text: &[u8]) -> Option<u128>
    ensures { result ≡ (if is_spelled_number text.now then Some (decimal_value text.now) else None) }
{
    if !is_number(text) {
        return None;
    }
    match str::from_utf8(text) {
        Ok(text) => text.parse().ok(),
        Err(_) => None,
    }
}

/// The number that a text spells, where its value is below 2^64.
pub fn number_of(digits: &[u8]) -> Option<u64>
    ensures { result ≡ spelled_number digits.now }
{
    u64::try_from(long_number_of(digits)?).ok()
}
