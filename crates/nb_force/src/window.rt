//! The resident pages of a cache, as walks see them.

ghost use Rattle.std.specs.Prelude.{◌≡◌, option_map};
ghost use Rattle.nb_cache.specs.View.{resident_bytes};

use nb_cache::Cache;
use nb_host::PageName;
use nb_record::{BodyPage, CellPage, Lender, PageError};

/// What a cache shows of a file of bodies and of a file of cells: the resident pages.
#[derive(Drop)]
pub struct Window<'a> {
    /// The cache.
    pub cache: &'a Cache,
    /// The number of the file of bodies.
    pub bodies: u64,
    /// The number of the file of cells.
    pub cells: u64,
}

impl Lender for Window<'_> {
    ghost cells = { λ w page. resident_bytes w.cache.now.held (record { file = w.cells; page = page }) };

    ghost bodies = { λ w page. resident_bytes w.cache.now.held (record { file = w.bodies; page = page }) };

    fn cell_page(&self, page: u64) -> Option<Result<CellPage<'_>, PageError>> {
        let name = PageName {
            file: self.cells,
            page,
        };
        let bytes = self.cache.lent(name)?;
        Some(CellPage::check(bytes, page))
    }

    fn body_page(&self, page: u64) -> Option<Result<BodyPage<'_>, PageError>> {
        let name = PageName {
            file: self.bodies,
            page,
        };
        let bytes = self.cache.lent(name)?;
        Some(BodyPage::check(bytes, page))
    }
}
