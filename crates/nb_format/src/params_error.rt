//! Why a parameter text is refused.

use thiserror::Error;

/// Why a parameter text is refused. Lines are counted from 1, and the parameters from 0 on, in the order of
/// `Params`.
#[derive(Clone, Copy, PartialEq, Eq, Debug, Error)]
pub enum ParamsError {
    /// The text has more than `MOST_TEXT` bytes.
    #[error("too long")]
    Long,
    /// The line of this number isn't of the form, or its name isn't a parameter's.
    #[error("no setting")]
    Line(u64),
    /// The parameter of this line stands on an earlier line too.
    #[error("a name twice")]
    Twice(u64),
    /// The value of this line is out of its parameter's range.
    #[error("out of range")]
    Range(u64),
    /// The parameter of this number isn't set, and those before it are.
    #[error("missing")]
    Missing(u8),
}
