//! What a search for a key on one page answers.

use crate::cell::CellView;

/// What a search for a key on one page answers.
#[derive(Debug, Drop)]
pub enum Look<'a> {
    /// The key's cell.
    Found(CellView<'a>),
    /// The page lacks the key, and has this next page.
    Next(u64),
    /// The page with this number isn't shown.
    Wants(u64),
    /// The page lacks the key, and has no next page.
    Gone,
    /// The page with this number is shown, and its header or the key's record isn't of the form.
    Bad(u64),
}
