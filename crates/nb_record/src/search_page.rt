//! The search for a key on one page.

ghost use Rattle.std.specs.Prelude.{◌≡◌, ◌<◌, ◌==◌, if◌then◌else◌};
ghost use Rattle.nb_record.specs.Records.{IsCell};
ghost use Rattle.nb_record.specs.Looking.{index_of_key, IsLook, IsLookOn, IfFound, IfNext};

use crate::answer::Look;
use crate::cell_page::CellPage;
use crate::header::NO_PAGE;
use crate::lender::Lender;
use nb_key::Key;

/// Looks for a key on one page of cells. Keys are compared in place, and one record is decoded, where the key
/// matches.
pub fn look<L: Lender>(lender: &L, key: Key, page: u64) -> Look<'_>
    ensures look { IsLook key page (L.cells lender.now page) result }
    ensures found { IfFound result IsCell }
    ensures wanted { IfFound result (λ cell. cell.key ≡ key) }
    ensures later { IfNext result (λ next. page < next) }
{
    match lender.cell_page(page) {
        None => Look::Wants(page),
        Some(Err(_)) => Look::Bad(page),
        Some(Ok(cells)) => look_on(&cells, key, page),
    }
}

/// Looks for a key on a page whose header is of the form.
fn look_on<'a>(cells: &CellPage<'a>, key: Key, page: u64) -> Look<'a>
    ensures look { IsLookOn page cells.now (index_of_key key cells.now) result }
    ensures found { IfFound result IsCell }
    ensures wanted { IfFound result (λ cell. cell.key ≡ key) }
{
    match cells.index_of(key) {
        Some(i) => match cells.cell(i) {
            Some(cell) => Look::Found(cell),
            None => Look::Bad(page),
        },
        None => after(cells.next_page()),
    }
}

/// Where to look after a page that lacks the key, from its next page.
fn after<'a>(next: u64) -> Look<'a>
    ensures { result ≡ (if next == 0 then Look.Gone else Look.Next next) }
{
    if next == NO_PAGE {
        return Look::Gone;
    }
    Look::Next(next)
}
