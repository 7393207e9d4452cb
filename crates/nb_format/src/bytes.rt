//! The fields of a header or a record, each at its offset, in bytes. Numbers are little-endian.

ghost use Rattle.std.specs.Prelude.{◌≡◌, ◌↔◌, IsTrue, ◌+◌, ◌≤◌, ◌++◌, length, take, drop};
ghost use Rattle.std.specs.Int.{w32, w64, to_le_bytes};

/// The number of the four bytes from this offset on.
pub(crate) fn u32_at(bytes: &[u8], at: usize) -> u32
    requires { at + 4 ≤ length bytes.now }
    ensures { take 4 (drop at bytes.now) ≡ to_le_bytes w32 result }
{
    u32::from_le_bytes([bytes[at], bytes[at + 1], bytes[at + 2], bytes[at + 3]])
}

/// The number of the eight bytes from this offset on.
pub(crate) fn u64_at(bytes: &[u8], at: usize) -> u64
    requires { at + 8 ≤ length bytes.now }
    ensures { take 8 (drop at bytes.now) ≡ to_le_bytes w64 result }
{
    u64::from_le_bytes([
        bytes[at],
        bytes[at + 1],
        bytes[at + 2],
        bytes[at + 3],
        bytes[at + 4],
        bytes[at + 5],
        bytes[at + 6],
        bytes[at + 7],
    ])
}

/// Whether a field stands at its offset.
pub(crate) fn stands_at(bytes: &[u8], at: usize, field: &[u8]) -> bool
    requires { at + length field.now ≤ length bytes.now }
    ensures { IsTrue result ↔ (take (length field.now) (drop at bytes.now) ≡ field.now) }
{
    &bytes[at..at + field.len()] == field
}

/// Puts a field at its offset.
pub(crate) fn put(bytes: &mut [u8], at: usize, field: &[u8])
    requires { at + length field.now ≤ length bytes.old }
    ensures front { take (at + length field.now) bytes.new ≡ take at bytes.old ++ field.now }
    ensures length { length bytes.new ≡ length bytes.old }
{
    bytes[at..at + field.len()].copy_from_slice(field);
}
