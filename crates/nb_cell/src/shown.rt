//! A resident page of a file of cells, as a search sees it.

ghost use Rattle.std.specs.Prelude.{◌≡◌, ◌==◌, if◌then◌else◌, Some, None, length};
ghost use Rattle.nb_host.specs.declared.page_name.TheConstants.{PAGE_SIZE};

use nb_record::{BodyPage, CellPage, Lender, PageError};

/// Shows one page of a file of cells, in the bytes that the cache lends, and no page of bodies.
#[derive(Drop)]
pub(crate) struct ResidentPage<'a> {
    pub(crate) page: u64,
    pub(crate) bytes: &'a [u8],
    ghost whole: { length bytes.now ≡ PAGE_SIZE },
}

impl<'a> Lender for ResidentPage<'a> {
    ghost cells = { λ shown page. if shown.page == page then Some shown.bytes.now else None };

    ghost bodies = { λ shown page. None };

    fn cell_page(&self, page: u64) -> Option<Result<CellPage<'_>, PageError>> {
        if self.page != page {
            return None;
        }
        let bytes = self.bytes;
        Some(CellPage::check(bytes, page))
    }

    fn body_page(&self, _page: u64) -> Option<Result<BodyPage<'_>, PageError>> {
        None
    }
}
