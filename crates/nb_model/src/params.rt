//! The parameters of a run.

use crate::edge::Edge;

/// The parameters of a run.
#[derive(Clone, Copy, PartialEq, Eq, Debug)]
pub struct Params {
    /// The constant of gravity, with half the squared time step in it: 0 to 2^60 - 1.
    pub grav: u64,
    /// The opening angle is `theta_num / theta_den`: 0 to 32768, over 1 to 32768.
    pub theta_num: u64,
    /// See `theta_num`.
    pub theta_den: u64,
    /// The softening length, in box units: 1 to 2^40 - 1.
    pub soft: u64,
    /// An opened cell with at most so many bodies is a leaf: 1 to 32. So is each cell at the deepest level.
    pub leaf: u64,
    /// The ticks from one snapshot to the next: 1 to 2^40.
    pub every: u64,
    /// What the border of the box does.
    pub edge: Edge,
}
