//! The fields of a page, each at its offset. Numbers are little-endian.

ghost use Rattle.std.specs.Prelude.{◌≡◌, ℕ, ◌+◌, ◌*◌, ◌^◌, ◌<◌, ◌≤◌, length, slice_index};
ghost use Rattle.std.specs.List.{flat_map};
ghost use Rattle.nb_record.specs.Fields.{u64_at, u32_at, i64_at, u64_bytes, u32_bytes, written};

use byteorder::{ByteOrder, LittleEndian};

/// The length of a word, in bytes.
pub(crate) const WORD: usize = 8;

/// The length of a short word, in bytes.
pub(crate) const SHORT: usize = 4;

/// The number of the eight bytes from an offset on.
#[tactic(auto, unfolding(crate::specs::Fields::u64_at))]
pub(crate) fn word_at(bytes: &[u8], offset: usize) -> u64
    requires { offset + 8 ≤ length bytes.now }
    ensures { result ≡ u64_at offset bytes.now }
{
    LittleEndian::read_u64(&bytes[offset..])
}

/// The number of the four bytes from an offset on.
#[tactic(auto, unfolding(crate::specs::Fields::u32_at))]
pub(crate) fn short_at(bytes: &[u8], offset: usize) -> u32
    requires { offset + 4 ≤ length bytes.now }
    ensures { result ≡ u32_at offset bytes.now }
{
    LittleEndian::read_u32(&bytes[offset..])
}

/// The signed number of the eight bytes from an offset on, in two's complement.
pub(crate) fn signed_word_at(bytes: &[u8], offset: usize) -> i64
    requires { offset + 8 ≤ length bytes.now }
    ensures { result ≡ i64_at offset bytes.now }
{
    word_at(bytes, offset).cast_signed()
}

/// Writes a number into the eight bytes from an offset on.
#[tactic(auto, unfolding(crate::specs::Fields::u64_bytes))]
pub(crate) fn put_word(into: &mut [u8], offset: usize, number: u64)
    requires { offset + 8 ≤ length into.old }
    ensures { into.new ≡ written offset (u64_bytes number) into.old }
{
    LittleEndian::write_u64(&mut into[offset..offset + WORD], number);
}

/// Writes a number into the four bytes from an offset on.
#[tactic(auto, unfolding(crate::specs::Fields::u32_bytes))]
pub(crate) fn put_short(into: &mut [u8], offset: usize, number: u32)
    requires { offset + 4 ≤ length into.old }
    ensures { into.new ≡ written offset (u32_bytes number) into.old }
{
    LittleEndian::write_u32(&mut into[offset..offset + SHORT], number);
}

/// Writes numbers into the bytes from an offset on, eight bytes each.
#[tactic(auto, unfolding(crate::specs::Fields::u64_bytes))]
pub(crate) fn put_words(into: &mut [u8], offset: usize, words: &[u64])
    requires { offset + 8 * length words.now ≤ length into.old }
    ensures bytes { into.new ≡ written offset (flat_map u64_bytes words.now) into.old }
    ensures fits { (i : ℕ) → slice_index words.now i < 2 ^ 64 }
{
    LittleEndian::write_u64_into(words, &mut into[offset..offset + WORD * words.len()]);
}
