//! A look at the page of a cell's chain.

ghost use Rattle.std.specs.Prelude.{◌≡◌, ◌≢◌, ◌↔◌, ℕ, ◌+◌, ◌^◌, ◌<◌, ◌≤◌, None};
ghost use Rattle.nb_host.specs.declared.page_name.PageName.{PageName as Names};
ghost use Rattle.nb_record.specs.Records.{IsCell};
ghost use Rattle.nb_walk.specs.declared.item.Item.TheVariants as item;
ghost use Rattle.nb_walk.specs.Items.{chain_page, page_for};
ghost use Rattle.nb_walk.specs.Sight.{IfCell, IfNextPage, SeesPage, SeesTree};

use nb_host::PageName;
use nb_key::Key;
use nb_record::{CellView, Lender, Look, Tree, look};

/// What the page of a cell's chain says.
#[derive(Debug, Drop)]
pub(crate) enum Sight<'a> {
    /// The cell.
    Cell(CellView<'a>),
    /// The page lacks the cell, and has this next page.
    Next(u64),
    /// The page isn't shown.
    Wants(PageName),
    /// The page is shown, and isn't the tree's.
    Damaged(PageName),
}

/// The page at which a cell's chain is looked at, where 0 stands for its first.
pub(crate) fn page_at(bits: u32, key: Key, page: u64) -> u64
    requires { bits ≤ 18 }
    ensures { result ≡ chain_page bits key page }
{
    if page == 0 {
        return key.number() % (1 << bits);
    }
    page
}

/// Looks a cell up on the page of its chain.
pub(crate) fn look_at<'a, L: Lender>(tree: &Tree, lender: &'a L, key: Key, page: u64) -> Sight<'a>
    requires bits { tree.now.bits ≤ 18 }
    ensures wants { (name : Names) → ((result ≡ Sight.Wants name)
        ↔ ((name ≡ page_for tree.now (item.Cell key page))
        × (L.cells lender.now (chain_page tree.now.bits key page) ≡ None))) }
    ensures damaged { (name : Names) → result ≡ Sight.Damaged name
        → (name ≡ page_for tree.now (item.Cell key page))
        × (L.cells lender.now (chain_page tree.now.bits key page) ≢ None) }
    ensures next { IfNextPage result (λ next. (page < next) × (next < tree.now.pages)) }
    ensures form { IfCell result IsCell }
    ensures key { IfCell result (λ cell. cell.key ≡ key) }
    ensures within { IfCell result (λ cell. cell.first + cell.count ≤ tree.now.count) }
    ensures page { SeesPage (L.cells lender.now (chain_page tree.now.bits key page)) key result }
    ensures tree { SeesTree tree.now (L.cells lender.now) (L.bodies lender.now) key page result }
{
    let at = page_at(tree.bits, key, page);
    let name = PageName {
        file: tree.cells,
        page: at,
    };
    match look(lender, key, at) {
        Look::Found(cell) => {
            if cell.first() + cell.count() > tree.count {
                return Sight::Damaged(name);
            }
            Sight::Cell(cell)
        }
        Look::Next(next) => {
            if next >= tree.pages {
                return Sight::Damaged(name);
            }
            Sight::Next(next)
        }
        Look::Wants(_) => Sight::Wants(name),
        Look::Gone | Look::Bad(_) => Sight::Damaged(name),
    }
}
