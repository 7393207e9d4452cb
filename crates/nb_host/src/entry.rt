//! What a host in memory records of a call.

use crate::{Channel, Outcome};

/// What a call did. Of a write and of a say it has all the bytes, and how many of them, the first ones, it
/// got done.
#[derive(Drop)]
pub enum CallRecord {
    /// Bytes were written into a file at an offset, in bytes.
    Write(u64, u64, Vec<u8>, usize),
    /// A file was cut to a length, in bytes, where it was longer.
    CutOff(u64, u64),
    /// A sync succeeded.
    Sync,
    /// Bytes were said on a channel.
    Say(Channel, Vec<u8>, usize),
    /// A file was given these bytes, durable.
    Place(u64, Vec<u8>),
    /// The machine crashed.
    Crash(Outcome),
}
