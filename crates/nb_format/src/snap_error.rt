//! Why a snapshot could not be read.

ghost use Rattle.std.specs.Prelude.{◌≡◌};
ghost use Rattle.nb_format.specs.Errors.{of_host};

use nb_host::HostError;
use thiserror::Error;

/// Why a snapshot could not be read: the first of its fields that is bad, or the host. A number is the index
/// of a body's record, from 0 on.
#[derive(Clone, Copy, PartialEq, Eq, Debug, Error)]
pub enum SnapError {
    /// The file is shorter than a header.
    #[error("short")]
    Short,
    /// The gate is shut: the file isn't finished.
    #[error("unfinished")]
    Unfinished,
    /// The form's name doesn't stand behind the gate.
    #[error("magic")]
    Magic,
    /// The header tells more bodies than a snapshot may have.
    #[error("count")]
    Count,
    /// The end of the header isn't zeros.
    #[error("zeros")]
    Zeros,
    /// The file hasn't the length that its header tells, or ends before the record that is to be read.
    #[error("length")]
    Length,
    /// The id isn't above the one before.
    #[error("id order at body {0}")]
    IdOrder(u64),
    /// The mass is 0.
    #[error("mass at body {0}")]
    Mass(u64),
    /// The flag is neither 0 nor 1.
    #[error("flag at body {0}")]
    Flag(u64),
    /// The position isn't in the box.
    #[error("place at body {0}")]
    Place(u64),
    /// An unescaped body is too fast on an axis.
    #[error("speed at body {0}")]
    Speed(u64),
    /// The device failed. The host's count of faults rose.
    #[error("a device fault")]
    Fault,
    /// Memory is wanting.
    #[error("no memory")]
    NoMemory,
}

impl From<HostError> for SnapError {
    ghost from_gives = { λ error e. e ≡ of_host error };

    fn from(error: HostError) -> Self {
        match error {
            HostError::Fault => SnapError::Fault,
            HostError::NoMemory => SnapError::NoMemory,
        }
    }
}
