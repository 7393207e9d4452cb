//! What a visit of a walk answers.

use nb_host::PageName;

/// What a visit of a walk answers.
#[derive(Clone, Copy, PartialEq, Eq, Debug)]
pub enum Visit {
    /// The walk went on.
    Moved,
    /// The page that it needs isn't shown; the walk is unchanged.
    Wants(PageName),
    /// Nothing was left when the visit began.
    Finished,
    /// The page with this name is shown, and isn't the tree's.
    Damaged(PageName),
}
