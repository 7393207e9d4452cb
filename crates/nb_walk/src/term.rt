//! What acts on the target of a walk.

use nb_model::{At, Body};

/// What acts on the target of a walk: a cell as one mass, or a body.
#[derive(Clone, Copy, PartialEq, Eq, Debug)]
pub enum Term {
    /// A cell, by the mass of its bodies and their centre of mass, in box units.
    Cell(u64, At),
    /// A body of an opened leaf.
    Body(Body),
}
