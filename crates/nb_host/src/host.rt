//! The trait of the outside.

ghost use Rattle.std.specs.Prelude.{◌≡◌, ◌+◌, ◌<◌, ◌≤◌, IsTrue, length, take, OnOk, IfOk};
ghost use Rattle.nb_host.specs.declared.host.HostError.TheVariants.{Fault, NoMemory};

use std::alloc::{AllocError, AllocFailed};

/// The greatest number of a file.
pub const LAST_FILE: u64 = 16 + (1 << 40);

/// What is read or written at an offset ends below this, in bytes.
pub const PLACE_LIMIT: u64 = 1 << 62;

/// Why a call of the host was refused.
#[derive(Clone, Copy, PartialEq, Eq, Debug)]
pub enum HostError {
    /// The device failed. The host's count of faults is one more.
    Fault,
    /// Memory is wanting. Nothing was done.
    NoMemory,
}

impl From<AllocError> for HostError {
    ghost from_gives = { λ _ e. e ≡ NoMemory };

    fn from(_: AllocError) -> Self {
        HostError::NoMemory
    }
}

impl<T: Drop> From<AllocFailed<T>> for HostError {
    ghost from_gives = { λ _ e. e ≡ NoMemory };

    fn from(_: AllocFailed<T>) -> Self {
        HostError::NoMemory
    }
}

impl From<nb_model::NoMemory> for HostError {
    ghost from_gives = { λ _ e. e ≡ NoMemory };

    fn from(_: nb_model::NoMemory) -> Self {
        HostError::NoMemory
    }
}

/// Where a line is said.
#[derive(Clone, Copy, PartialEq, Eq, Debug)]
pub enum Channel {
    /// The program's standard output.
    Out,
    /// The program's standard error.
    Err,
}

/// Files by their numbers, and two channels.
///
/// Each call may be refused. At NoMemory no file and no channel changed. At Fault the host's count of faults
/// is one more, at any other answer it stays, and the clauses of the call say what it may have left.
pub trait Host {
    /// What a host of this type tells, counts and may leave after a crash, with the laws of that. Whether it
    /// tells its contents, and whether it is honest, is a fact of the type.
    ghost meaning: { HostModel Self };

    ghost use Rattle.nb_host.specs.Crashes.{Stays};
    ghost use Rattle.nb_host.specs.Image.{IsOverwritten, IsCut, IsTorn, IsPartlyCut, FileBecomes, readable};
    ghost use Rattle.nb_host.specs.Meaning.{HostModel, IsDurable, Leads, Over, Ran, RanSyncing, RanSaying};

    /// The file's length in bytes: 0 for one that isn't there.
    fn len(&mut self, file: u64) -> Result<u64, HostError>
        requires { file ≤ LAST_FILE }
        ensures length { IfOk result (λ n. IsTrue meaning.tells
            → n ≡ length ((meaning.contents self.old).file file)) }
        ensures ran { Ran meaning HostError.Fault Stays self.old self.new result };

    /// Fills `into` from the offset `at` on, in bytes, and answers how many bytes it gave: fewer than asked
    /// for only where the file ends. What `into` holds behind them, or after a refusal, is left open.
    fn read_at(&mut self, file: u64, at: u64, into: &mut [u8]) -> Result<usize, HostError>
        requires number { file ≤ LAST_FILE }
        requires offset { at + length into.old < PLACE_LIMIT }
        ensures count { IfOk result (λ n. n ≤ length into.old) }
        ensures whole { IfOk result (λ n. IsTrue meaning.tells
            → n ≡ length (readable at (length into.old) ((meaning.contents self.old).file file))) }
        ensures bytes { IfOk result (λ n. IsTrue meaning.tells
            → take n into.new ≡ readable at (length into.old) ((meaning.contents self.old).file file)) }
        ensures ran { Ran meaning HostError.Fault Stays self.old self.new result };

    /// Puts the bytes at the offset `at`. A gap before the offset reads as zeros, and a write of no bytes
    /// does nothing. After Fault the bytes of the range, and those of the gap, may be anything. The length
    /// is then from the old one up to the greater of it and the range's end.
    fn write_at(&mut self, file: u64, at: u64, bytes: &[u8]) -> Result<(), HostError>
        requires number { file ≤ LAST_FILE }
        requires offset { at + length bytes.now < PLACE_LIMIT }
        ensures written { OnOk result
            (Over meaning (FileBecomes file (IsOverwritten at bytes.now)) self.old self.new) }
        ensures ran { Ran meaning HostError.Fault (FileBecomes file (IsTorn at (length bytes.now)))
            self.old self.new result }
        ensures nothing { result ≡ Err HostError.NoMemory → Leads meaning Stays self.old self.new };

    /// Makes the file `len` bytes long where it is longer. After Fault the length is between the new and
    /// the old, and the bytes from `len` on may be anything.
    fn cut(&mut self, file: u64, len: u64) -> Result<(), HostError>
        requires { file ≤ LAST_FILE }
        ensures cut { OnOk result (Over meaning (FileBecomes file (IsCut len)) self.old self.new) }
        ensures ran { Ran meaning HostError.Fault (FileBecomes file (IsPartlyCut len))
            self.old self.new result }
        ensures nothing { result ≡ Err HostError.NoMemory → Leads meaning Stays self.old self.new };

    /// Makes all files durable: what they hold now outlasts a crash.
    fn sync(&mut self) -> Result<(), HostError>
        ensures durable { OnOk result (IsDurable meaning self.new) }
        ensures ran { RanSyncing meaning 1 HostError.Fault Stays self.old self.new result };

    /// Says the bytes on the channel. After Fault the first of them may have been said.
    fn say(&mut self, channel: Channel, bytes: &[u8]) -> Result<(), HostError>
        ensures spoke { RanSaying meaning channel bytes.now self.old self.new result };
}
