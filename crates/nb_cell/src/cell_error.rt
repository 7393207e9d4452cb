//! Why a call on a table of cells was refused.

ghost use Rattle.std.specs.Prelude.{◌≡◌};
ghost use Rattle.nb_cell.specs.Errors.{of_cache};

use nb_cache::CacheError;
use nb_host::PageName;

/// Why a call on a table of cells was refused.
#[derive(Clone, Copy, PartialEq, Eq, Debug)]
pub enum CellError {
    /// The device failed. The host's count of faults rose.
    Fault,
    /// Memory is wanting.
    NoMemory,
    /// This page isn't whole in its file, or isn't what it has to be.
    Damaged(PageName),
}

impl From<CacheError> for CellError {
    ghost from_gives = { λ error e. e ≡ of_cache error };

    fn from(error: CacheError) -> Self {
        match error {
            CacheError::Fault => CellError::Fault,
            CacheError::NoMemory => CellError::NoMemory,
            CacheError::Short(name) => CellError::Damaged(name),
        }
    }
}
