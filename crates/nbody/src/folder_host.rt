//! The host of the real program: the current folder, the standard output and the standard error.
//!
//! This is the trusted edge. It tells no contents, so no clause says that what it reads is what was
//! written: that is for a reader of this file, `folder` and `open_files`. What is proved is that each fault
//! is counted, that a read gives no more than it was asked for, which name each file has, and that nothing
//! overflows or runs forever.

ghost use Rattle.std.specs.Prelude.{◌≡◌, IfOk};
ghost use Rattle.nb_host.specs.Faults.{CountsFault};
ghost use Rattle.nb_host.specs.Meaning.{untold_host};

use crate::folder::Folder;
use crate::open_files::FileError;
use nb_host::{Channel, Host, HostError};
use std::fs::File;
use std::rt::Files;

/// The current folder and the two standard streams.
#[derive(Drop)]
pub struct FolderHost<R, O, E> {
    folder: Folder<R>,
    out: O,
    err: E,
    faults: u64,
}

impl<R, O, E> FolderHost<R, O, E>
where
    R: Files<File = File> + AllocGlobal + Clone + Drop,
    O: Print + Drop,
    E: Print + Drop,
{
    /// The folder that the process runs in. It opens nothing yet, and takes no memory.
    pub fn new(rt: R, out: O, err: E) -> Self {
        FolderHost {
            folder: Folder::new(rt),
            out,
            err,
            faults: 0,
        }
    }

    /// The answer as the host's, once a failure of the device has been counted.
    fn counted<T: Drop>(&mut self, answer: Result<T, FileError>) -> Result<T, HostError>
        ensures value { IfOk result (λ value. answer ≡ Ok value) }
        ensures no_memory { result ≡ Err HostError.NoMemory → answer ≡ Err FileError.NoMemory }
        ensures fault { CountsFault self.old.faults self.new.faults result }
    {
        match answer {
            Ok(value) => Ok(value),
            Err(FileError::NoMemory) => Err(HostError::NoMemory),
            Err(FileError::Device) => {
                self.faults = self.faults.saturating_add(1);
                Err(HostError::Fault)
            }
        }
    }
}

impl<R, O, E> Host for FolderHost<R, O, E>
where
    R: Files<File = File> + AllocGlobal + Clone + Drop,
    O: Print + Drop,
    E: Print + Drop,
{
    ghost meaning = { untold_host (λ host. host.faults) };

    #[tactic(auto, using(nb_host::proofs::Callers::untold_ran, nb_host::proofs::Callers::untold_leads))]
    fn len(&mut self, file: u64) -> Result<u64, HostError> {
        let answer = self.folder.len(file);
        self.counted(answer)
    }

    #[tactic(auto, using(nb_host::proofs::Callers::untold_ran, nb_host::proofs::Callers::untold_leads))]
    fn read_at(&mut self, file: u64, at: u64, into: &mut [u8]) -> Result<usize, HostError> {
        let answer = self.folder.read_at(file, at, into);
        self.counted(answer)
    }

    #[tactic(auto, using(nb_host::proofs::Callers::untold_ran, nb_host::proofs::Callers::untold_leads))]
    fn write_at(&mut self, file: u64, at: u64, bytes: &[u8]) -> Result<(), HostError> {
        let answer = self.folder.write_at(file, at, bytes);
        self.counted(answer)
    }

    #[tactic(auto, using(nb_host::proofs::Callers::untold_ran, nb_host::proofs::Callers::untold_leads))]
    fn cut(&mut self, file: u64, len: u64) -> Result<(), HostError> {
        let answer = self.folder.cut(file, len);
        self.counted(answer)
    }

    #[tactic(auto, using(nb_host::proofs::Callers::untold_syncing))]
    fn sync(&mut self) -> Result<(), HostError> {
        let answer = self.folder.sync();
        self.counted(answer)
    }

    // The streams hold nothing back, so there is nothing to flush.
    #[tactic(auto, using(nb_host::proofs::Callers::untold_spoke))]
    fn say(&mut self, channel: Channel, bytes: &[u8]) -> Result<(), HostError> {
        let answer = match channel {
            Channel::Out => self.out.write_all(bytes),
            Channel::Err => self.err.write_all(bytes),
        };
        self.counted(answer.map_err(FileError::from))
    }
}

#[cfg(test)]
mod tests;
