//! Why a call on a file of bodies was refused.

ghost use Rattle.std.specs.Prelude.{◌≡◌};
ghost use Rattle.nb_order.specs.declared.order_error.OrderError.TheVariants.{NoMemory};
ghost use Rattle.nb_order.specs.Errors.{of_cache};

use nb_cache::CacheError;
use nb_host::PageName;
use std::alloc::AllocFailed;

/// Why a call on a file of bodies was refused.
#[derive(Clone, Copy, PartialEq, Eq, Debug)]
pub enum OrderError {
    /// The device failed. The host's count of faults rose.
    Fault,
    /// Memory is wanting.
    NoMemory,
    /// This page isn't whole in its file, or isn't what it has to be.
    Damaged(PageName),
}

impl From<CacheError> for OrderError {
    ghost from_gives = { λ error e. e ≡ of_cache error };

    fn from(error: CacheError) -> Self {
        match error {
            CacheError::Fault => OrderError::Fault,
            CacheError::NoMemory => OrderError::NoMemory,
            CacheError::Short(name) => OrderError::Damaged(name),
        }
    }
}

impl<T: Drop> From<AllocFailed<T>> for OrderError {
    ghost from_gives = { λ _ e. e ≡ NoMemory };

    fn from(_: AllocFailed<T>) -> Self {
        OrderError::NoMemory
    }
}
