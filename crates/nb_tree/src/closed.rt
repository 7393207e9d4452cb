//! A cell whose bodies were all read.

ghost use Rattle.std.specs.Prelude.{◌≡◌};
ghost use Rattle.nb_record.specs.Records.{IsCell};
ghost use Rattle.nb_tree.specs.Passes.{IsClosed, cell_closed};

use crate::sums::Sums;
use nb_key::Key;
use nb_record::Cell;

/// A cell whose bodies were all read. Its centre isn't taken yet, since most of these cells lie under a leaf
/// and are dropped.
#[derive(Clone, Copy, PartialEq, Eq, Default, Debug)]
pub(crate) struct ClosedCell {
    pub(crate) key: Key,
    pub(crate) sums: Sums,
    /// The number of the cell's first body in the file of bodies, counted from 0.
    pub(crate) first: u64,
    /// Bit j says that octant j isn't empty. A leaf has 0.
    pub(crate) kids: u8,
}

impl ClosedCell {
    /// The cell, with its centre of mass.
    pub(crate) fn cell(&self) -> Cell
        requires closed { IsClosed self.now }
        ensures value { result ≡ cell_closed self.now }
        ensures form { IsCell result }
    {
        Cell {
            key: self.key,
            mass: self.sums.mass,
            centre: self.sums.centre(),
            first: self.first,
            count: self.sums.count,
            kids: self.kids,
        }
    }
}
