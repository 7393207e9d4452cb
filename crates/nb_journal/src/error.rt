//! Why a journal could not be read.

ghost use Rattle.std.specs.Prelude.{◌≡◌};
ghost use Rattle.nb_journal.specs.Finding.{of_host};

use nb_host::HostError;
use thiserror::Error;

/// Why a journal could not be read.
#[derive(Clone, Copy, PartialEq, Eq, Debug, Error)]
pub enum JournalError {
    /// The device failed. The host's count of faults rose.
    #[error("a device fault")]
    Fault,
    /// Memory is wanting.
    #[error("no memory")]
    NoMemory,
    /// The journal is damaged at this offset in its file, in bytes.
    #[error("damaged at {0}")]
    Damaged(u64),
}

impl From<HostError> for JournalError {
    ghost from_gives = { λ error e. e ≡ of_host error };

    fn from(error: HostError) -> Self {
        match error {
            HostError::Fault => JournalError::Fault,
            HostError::NoMemory => JournalError::NoMemory,
        }
    }
}
