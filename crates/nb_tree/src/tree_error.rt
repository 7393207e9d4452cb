//! Why a build was refused.

ghost use Rattle.std.specs.Prelude.{◌≡◌};
ghost use Rattle.nb_tree.specs.declared.tree_error.TreeError.TheVariants.{NoMemory};
ghost use Rattle.nb_tree.specs.Errors.{of_host, of_order, of_cell};

use nb_cell::CellError;
use nb_host::{HostError, PageName};
use nb_order::OrderError;
use std::alloc::AllocFailed;

/// Why a build was refused.
#[derive(Clone, Copy, PartialEq, Eq, Debug)]
pub enum TreeError {
    /// The device failed. The host's count of faults rose.
    Fault,
    /// Memory is wanting.
    NoMemory,
    /// This page of the file of bodies isn't what it has to be, or its bodies are too heavy. Over a host that
    /// doesn't tell what its files hold, the page may be of the file of cells.
    Damaged(PageName),
}

impl From<HostError> for TreeError {
    ghost from_gives = { λ error e. e ≡ of_host error };

    fn from(error: HostError) -> Self {
        match error {
            HostError::Fault => TreeError::Fault,
            HostError::NoMemory => TreeError::NoMemory,
        }
    }
}

impl From<OrderError> for TreeError {
    ghost from_gives = { λ error e. e ≡ of_order error };

    fn from(error: OrderError) -> Self {
        match error {
            OrderError::Fault => TreeError::Fault,
            OrderError::NoMemory => TreeError::NoMemory,
            OrderError::Damaged(name) => TreeError::Damaged(name),
        }
    }
}

impl From<CellError> for TreeError {
    ghost from_gives = { λ error e. e ≡ of_cell error };

    fn from(error: CellError) -> Self {
        match error {
            CellError::Fault => TreeError::Fault,
            CellError::NoMemory => TreeError::NoMemory,
            CellError::Damaged(name) => TreeError::Damaged(name),
        }
    }
}

impl<T: Drop> From<AllocFailed<T>> for TreeError {
    ghost from_gives = { λ _ e. e ≡ NoMemory };

    fn from(_: AllocFailed<T>) -> Self {
        TreeError::NoMemory
    }
}
