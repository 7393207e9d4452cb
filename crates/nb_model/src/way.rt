//! The direction of a tick.

/// The direction of a tick in time.
#[derive(Clone, Copy, PartialEq, Eq, Debug)]
pub enum Way {
    /// Time goes on by 1.
    Forward,
    /// Time goes back by 1, and the tick undoes one forward, but for bodies that become out.
    Back,
}
