//! What a host call in memory does.

/// What the next host call does of its part.
#[derive(Clone, Copy, PartialEq, Eq, Debug)]
pub enum Fate {
    /// All of it.
    Passes,
    /// It answers Fault, and a write or a say does the first half of its bytes, rounded down.
    HalfDone,
    /// It answers Fault, and does nothing.
    Nothing,
}
