//! Where the parts of a journal stand, and how they are spelled. Numbers are little-endian.

ghost use Rattle.std.specs.Prelude.{◌≡◌, ◌^◌, ◌<◌, ◌≤◌};
ghost use Rattle.nb_journal.specs.Counters.{log_under};
ghost use Rattle.nb_journal.specs.Form.{header_fields, header, lettered, entry_bytes, edge_code};
ghost use Rattle.nb_journal.specs.Offsets.{offset_of};

use crate::entry::Entry;
use nb_host::PAGE_SIZE;
use nb_model::{Edge, Params};

/// The number of the journal's file.
pub(crate) const JOURNAL_FILE: u64 = 2;

/// The length of a page, in bytes. Page 0 is the header, and entries stand on the pages behind it.
pub(crate) const PAGE_LENGTH: u64 = PAGE_SIZE as u64;

/// The length of an entry, in bytes.
pub(crate) const ENTRY_LENGTH: usize = 32;

/// How many entries a page has.
pub(crate) const ENTRIES_PER_PAGE: u64 = 128;

/// Byte 0 of a journal that is started.
pub(crate) const STARTED: u8 = b'S';

/// Byte 0 of an entry that counts.
pub(crate) const COUNTS: u8 = b'G';

/// A gate that is shut.
pub(crate) const SHUT: u8 = 0;

/// The version of the form that is written. Version 1, which is read too, knows open boxes only.
pub(crate) const VERSION: u8 = 2;

/// The length of a header up to its last number, in bytes.
const FRONT_LENGTH: usize = 88;

/// The form's name, behind the gate.
const NAME: &[u8; 6] = b"NBJRNL";

/// The digit of version 0.
pub(crate) const DIGITS: u8 = b'0';

/// The letter of a leg.
pub(crate) const LEG: u8 = b'L';

/// The letter of a tick.
const TICK: u8 = b'T';

/// What a header tells.
#[derive(Clone, Copy, Debug)]
pub(crate) struct Heading {
    /// The version of the form.
    pub(crate) version: u8,
    /// The parameters of the run.
    pub(crate) params: Params,
    /// How many bodies there are.
    pub(crate) count: u64,
    /// The time at the start, in ticks.
    pub(crate) time: u64,
    /// How many bodies are out at the start.
    pub(crate) gone: u64,
}

/// Where entry number `entry` stands, in bytes.
pub(crate) fn offset_of(entry: u64) -> u64
    requires { entry < 2 ^ 50 }
    ensures { result ≡ offset_of entry }
{
    PAGE_LENGTH + ENTRY_LENGTH as u64 * entry
}

/// An entry that counts.
pub(crate) fn spell(entry: Entry) -> [u8; ENTRY_LENGTH]
    ensures { result ≡ entry_bytes entry }
{
    match entry {
        Entry::Leg(target) => spell_lettered(LEG, target, 0),
        Entry::Tick(number, gone) => spell_lettered(TICK, number, gone),
    }
}

fn spell_lettered(letter: u8, first: u64, second: u64) -> [u8; ENTRY_LENGTH]
    ensures { result ≡ lettered letter first second }
{
    let mut bytes = [0; ENTRY_LENGTH];
    bytes[0] = COUNTS;
    bytes[1] = letter;
    bytes[8..16].copy_from_slice(&first.to_le_bytes());
    bytes[16..24].copy_from_slice(&second.to_le_bytes());
    bytes
}

/// Page 0, behind this gate.
pub(crate) fn page(gate: u8, heading: &Heading) -> [u8; PAGE_SIZE]
    requires { heading.now.version ≤ 2 }
    ensures { result ≡ header gate (log_under heading.now) }
{
    let mut bytes = [0; PAGE_SIZE];
    bytes[..FRONT_LENGTH].copy_from_slice(&page_front(gate, heading));
    bytes
}

fn page_front(gate: u8, heading: &Heading) -> [u8; FRONT_LENGTH]
    requires { heading.now.version ≤ 2 }
    ensures { result ≡ header_fields gate (log_under heading.now) }
{
    let params = &heading.params;
    let mut bytes = [0; FRONT_LENGTH];
    bytes[0] = gate;
    bytes[1..7].copy_from_slice(NAME);
    bytes[7] = DIGITS + heading.version;
    bytes[8..16].copy_from_slice(&params.grav.to_le_bytes());
    bytes[16..24].copy_from_slice(&params.theta_num.to_le_bytes());
    bytes[24..32].copy_from_slice(&params.theta_den.to_le_bytes());
    bytes[32..40].copy_from_slice(&params.soft.to_le_bytes());
    bytes[40..48].copy_from_slice(&params.leaf.to_le_bytes());
    bytes[48..56].copy_from_slice(&params.every.to_le_bytes());
    bytes[56..64].copy_from_slice(&heading.count.to_le_bytes());
    bytes[64..72].copy_from_slice(&heading.time.to_le_bytes());
    bytes[72..80].copy_from_slice(&heading.gone.to_le_bytes());
    bytes[80..88].copy_from_slice(&edge_code(params.edge).to_le_bytes());
    bytes
}

fn edge_code(edge: Edge) -> u64
    ensures { result ≡ edge_code edge }
{
    match edge {
        Edge::Open => 0,
        Edge::Wrap => 1,
    }
}
