//! What shows pages.

ghost use Rattle.std.specs.Prelude.{◌≡◌, ℕ, List, Option, option_map};
ghost use Rattle.nb_record.specs.Pages.{read_cell_page, read_body_page};

use crate::body_page::BodyPage;
use crate::cell_page::CellPage;
use crate::header::PageError;

/// What shows pages of a file of cells and of a file of bodies, as a cache does. It shows some of them and
/// reads none: to have another shown is its owner's matter.
pub trait Lender {
    // The bytes of the page of cells that is shown under a number, and of the page of bodies.
    ghost cells: { Self → ℕ → Option (List ℕ) };

    ghost bodies: { Self → ℕ → Option (List ℕ) };

    /// The page of cells with this number, as a check of its header answers; None where it isn't shown.
    fn cell_page(&self, page: u64) -> Option<Result<CellPage<'_>, PageError>>
        ensures { result ≡ option_map (λ bytes. read_cell_page page bytes) (cells self.now page) };

    /// The page of bodies with this number, as a check of its header answers; None where it isn't shown.
    fn body_page(&self, page: u64) -> Option<Result<BodyPage<'_>, PageError>>
        ensures { result ≡ option_map (λ bytes. read_body_page page bytes) (bodies self.now page) };
}
