//! What a step of a course answers.

use crate::term::Term;
use nb_host::PageName;

/// What a step of a course answers.
#[derive(Clone, Copy, PartialEq, Eq, Debug)]
pub enum Step {
    /// The next term of the interaction list.
    Term(Term),
    /// The course went on, and has no term yet.
    Moved,
    /// The next page isn't shown; the course is unchanged.
    Wants(PageName),
    /// Nothing was left when the step began.
    Finished,
    /// The page with this name is shown, and isn't the tree's.
    Damaged(PageName),
}
