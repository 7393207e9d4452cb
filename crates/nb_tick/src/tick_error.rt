//! Why a tick was refused.

ghost use Rattle.std.specs.Prelude.{◌≡◌};
ghost use Rattle.nb_tick.specs.Errors.{of_cache, of_order, of_tree, of_force};

use nb_cache::CacheError;
use nb_force::ForceError;
use nb_host::PageName;
use nb_order::OrderError;
use nb_tree::TreeError;

/// Why a tick was refused.
#[derive(Clone, Copy, PartialEq, Eq, Debug)]
pub enum TickError {
    /// The device failed. The host's count of faults rose.
    Fault,
    /// Memory is wanting.
    NoMemory,
    /// The slot doesn't hold so many valid bodies in Morton order, or the host didn't return what was written:
    /// the page of a file of the tick at which that was seen.
    Damaged(PageName),
}

impl From<CacheError> for TickError {
    ghost from_gives = { λ error e. e ≡ of_cache error };

    fn from(error: CacheError) -> Self {
        match error {
            CacheError::Fault => TickError::Fault,
            CacheError::NoMemory => TickError::NoMemory,
            CacheError::Short(name) => TickError::Damaged(name),
        }
    }
}

impl From<OrderError> for TickError {
    ghost from_gives = { λ error e. e ≡ of_order error };

    fn from(error: OrderError) -> Self {
        match error {
            OrderError::Fault => TickError::Fault,
            OrderError::NoMemory => TickError::NoMemory,
            OrderError::Damaged(name) => TickError::Damaged(name),
        }
    }
}

impl From<TreeError> for TickError {
    ghost from_gives = { λ error e. e ≡ of_tree error };

    fn from(error: TreeError) -> Self {
        match error {
            TreeError::Fault => TickError::Fault,
            TreeError::NoMemory => TickError::NoMemory,
            TreeError::Damaged(name) => TickError::Damaged(name),
        }
    }
}

impl From<ForceError> for TickError {
    ghost from_gives = { λ error e. e ≡ of_force error };

    fn from(error: ForceError) -> Self {
        match error {
            ForceError::Fault => TickError::Fault,
            ForceError::NoMemory => TickError::NoMemory,
            ForceError::Damaged(name) => TickError::Damaged(name),
        }
    }
}
