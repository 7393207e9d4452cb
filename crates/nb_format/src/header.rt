//! The header: the gate, the form's name, the count of bodies, the time, and zeros.

ghost use Rattle.std.specs.Prelude.{◌≡◌, IfOk, IfErr, Some};
ghost use Rattle.nb_format.specs.Snapshot.{header_bytes, IsHeader};
ghost use Rattle.nb_format.specs.SnapshotRefusal.{header_field_refusal, IsOfHeader};

use crate::SnapError;
use crate::bytes::{put, stands_at, u64_at};
use nb_model::MOST_BODIES;

/// The length of a header, in bytes.
pub(crate) const HEADER_LENGTH: usize = 32;

/// Byte 0 of a finished snapshot.
pub(crate) const GATE: u8 = b'F';

/// The form's name, behind the gate.
const NAME: &[u8; 7] = b"NBSNAP1";

/// What stands at the end of a header.
const ZEROS: [u8; 8] = [0; 8];

// The offsets of the fields, in bytes.
const GATE_AT: usize = 0;

const NAME_AT: usize = 1;

const COUNT_AT: usize = 8;

const TIME_AT: usize = 16;

const ZEROS_AT: usize = 24;

/// What a header tells.
#[derive(Clone, Copy, Debug)]
pub(crate) struct Header {
    /// How many bodies the snapshot has.
    pub(crate) count: u64,
    /// The time of the snapshot, in ticks.
    pub(crate) time: u64,
}

/// The header that the bytes spell, or the first of its fields that isn't of the form.
pub(crate) fn decode(bytes: &[u8; HEADER_LENGTH]) -> Result<Header, SnapError>
    ensures header { IfOk result (λ header. IsHeader bytes.now header.count header.time) }
    ensures refusal { IfErr result (λ e. header_field_refusal bytes.now ≡ Some e) }
    ensures code { IfErr result IsOfHeader }
{
    if bytes[GATE_AT] != GATE {
        return Err(SnapError::Unfinished);
    }
    if !stands_at(bytes, NAME_AT, NAME) {
        return Err(SnapError::Magic);
    }
    let count = u64_at(bytes, COUNT_AT);
    if count > MOST_BODIES {
        return Err(SnapError::Count);
    }
    let zeros = u64_at(bytes, ZEROS_AT);
    if zeros != 0 {
        return Err(SnapError::Zeros);
    }
    let time = u64_at(bytes, TIME_AT);
    Ok(Header { count, time })
}

/// The header of so many bodies at a time in ticks.
pub(crate) fn encode(count: u64, time: u64) -> [u8; HEADER_LENGTH]
    ensures { result ≡ header_bytes count time }
{
    let mut bytes = [0; HEADER_LENGTH];
    put(&mut bytes, GATE_AT, &[GATE]);
    put(&mut bytes, NAME_AT, NAME);
    put(&mut bytes, COUNT_AT, &count.to_le_bytes());
    put(&mut bytes, TIME_AT, &time.to_le_bytes());
    put(&mut bytes, ZEROS_AT, &ZEROS);
    bytes
}
