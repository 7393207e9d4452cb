//! The entries of a journal.

/// An entry of a journal.
#[derive(Clone, Copy, PartialEq, Eq, Debug)]
pub enum Entry {
    /// A leg begins: its target, the time in ticks at which it ends.
    Leg(u64),
    /// A tick is done: its number, from 1 on, and how many bodies are out after it.
    Tick(u64, u64),
}
