//! Why a call of the force phase was refused.

ghost use Rattle.std.specs.Prelude.{◌≡◌};
ghost use Rattle.nb_force.specs.Errors.{of_cache, of_order};

use nb_cache::CacheError;
use nb_host::PageName;
use nb_order::OrderError;

/// Why a call of the force phase was refused.
#[derive(Clone, Copy, PartialEq, Eq, Debug)]
pub enum ForceError {
    /// The device failed. The host's count of faults rose.
    Fault,
    /// Memory is wanting.
    NoMemory,
    /// This page isn't the tree's, or the receiver can't take a body to the file of this page.
    Damaged(PageName),
}

impl From<CacheError> for ForceError {
    ghost from_gives = { λ error e. e ≡ of_cache error };

    fn from(error: CacheError) -> Self {
        match error {
            CacheError::Fault => ForceError::Fault,
            CacheError::NoMemory => ForceError::NoMemory,
            CacheError::Short(name) => ForceError::Damaged(name),
        }
    }
}

impl From<OrderError> for ForceError {
    ghost from_gives = { λ error e. e ≡ of_order error };

    fn from(error: OrderError) -> Self {
        match error {
            OrderError::Fault => ForceError::Fault,
            OrderError::NoMemory => ForceError::NoMemory,
            OrderError::Damaged(name) => ForceError::Damaged(name),
        }
    }
}
