//! Why a call of the cache was refused.

ghost use Rattle.std.specs.Prelude.{◌≡◌};
ghost use Rattle.nb_cache.specs.declared.cache_error.CacheError.TheVariants.{NoMemory};
ghost use Rattle.nb_cache.specs.Errors.{of_host};

use nb_host::{HostError, PageName};

/// Why a call of the cache was refused.
#[derive(Clone, Copy, PartialEq, Eq, Debug)]
pub enum CacheError {
    /// The device failed. The host's count of faults rose.
    Fault,
    /// Memory is wanting.
    NoMemory,
    /// The file ends before the end of this page, which was to be fetched.
    Short(PageName),
}

impl From<HostError> for CacheError {
    ghost from_gives = { λ error e. e ≡ of_host error };

    fn from(error: HostError) -> Self {
        match error {
            HostError::Fault => CacheError::Fault,
            HostError::NoMemory => CacheError::NoMemory,
        }
    }
}

impl From<nb_model::NoMemory> for CacheError {
    ghost from_gives = { λ _ e. e ≡ NoMemory };

    fn from(_: nb_model::NoMemory) -> Self {
        CacheError::NoMemory
    }
}
