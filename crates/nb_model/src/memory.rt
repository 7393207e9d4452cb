//! The one refusal of a call that wants memory and finds none.

use std::alloc::{AllocError, AllocFailed};

/// Memory is wanting. It is the one answer that no clause ties to a cause.
#[derive(Clone, Copy, PartialEq, Eq, Debug)]
pub struct NoMemory;

impl From<AllocError> for NoMemory {
    fn from(_: AllocError) -> Self {
        NoMemory
    }
}

impl<T: Drop> From<AllocFailed<T>> for NoMemory {
    fn from(_: AllocFailed<T>) -> Self {
        NoMemory
    }
}
