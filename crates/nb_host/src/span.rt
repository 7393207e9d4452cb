//! A range of a file's bytes.

/// The bytes of a file from one offset on, up to another and without it.
#[derive(Clone, Copy, PartialEq, Eq, Debug)]
pub struct Span {
    pub from: u64,
    pub end: u64,
}
