//! Entries as bytes, read.

ghost use Rattle.std.specs.Prelude.{◌≡◌, ◌↔◌, ℕ, ◌+◌, ◌≤◌, IsTrue, length, take, drop};
ghost use Rattle.std.specs.Int.{w64, to_le_bytes};
ghost use Rattle.nb_journal.specs.declared.entry.Entry.{Entry as Entries};
ghost use Rattle.nb_journal.specs.Form.{entry_bytes};
ghost use Rattle.nb_journal.specs.Reading.{HasFields};

use crate::entry::Entry;
use crate::form::{COUNTS, ENTRY_LENGTH, LEG, spell};
use nb_host::PAGE_SIZE;

/// The number of the eight bytes from this offset on.
pub(crate) fn u64_at(bytes: &[u8], at: usize) -> u64
    requires { at + 8 ≤ length bytes.now }
    ensures { take 8 (drop at bytes.now) ≡ to_le_bytes w64 result }
{
    u64::from_le_bytes([
        bytes[at],
        bytes[at + 1],
        bytes[at + 2],
        bytes[at + 3],
        bytes[at + 4],
        bytes[at + 5],
        bytes[at + 6],
        bytes[at + 7],
    ])
}

/// The bytes of the entry at this offset of a page.
pub(crate) fn slot(page: &[u8; PAGE_SIZE], at: usize) -> [u8; ENTRY_LENGTH]
    requires { at + 32 ≤ 4096 }
    ensures cut { result ≡ take 32 (drop at page.now) }
    ensures long { length result ≡ 32 }
{
    let mut bytes = [0; ENTRY_LENGTH];
    bytes.copy_from_slice(&page[at..at + ENTRY_LENGTH]);
    bytes
}

/// Whether an entry with this gate counts.
pub(crate) fn counts(gate: u8) -> bool
    ensures { IsTrue result ↔ (gate ≡ 71) }
{
    gate == COUNTS
}

/// The entry of these bytes, where they are one's.
pub(crate) fn parse(bytes: &[u8; ENTRY_LENGTH]) -> Entry
    ensures { (entry : Entries) → HasFields entry → bytes.now ≡ entry_bytes entry → result ≡ entry }
{
    let first = u64_at(bytes, 8);
    if bytes[1] == LEG {
        return Entry::Leg(first);
    }
    Entry::Tick(first, u64_at(bytes, 16))
}

/// Whether these are the entry's bytes.
pub(crate) fn spells(entry: Entry, bytes: &[u8; ENTRY_LENGTH]) -> bool
    ensures spelled { IsTrue result ↔ (bytes.now ≡ entry_bytes entry) }
    ensures long { length bytes.now ≡ 32 }
{
    *bytes == spell(entry)
}
