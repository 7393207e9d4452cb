//! What a walk has left.

ghost use Rattle.std.specs.Prelude.{◌≡◌};

use nb_key::Key;

/// A part of what a walk has left.
#[derive(Clone, Copy, PartialEq, Eq, Debug)]
pub enum Item {
    /// A cell that is to be looked up: its key, and the page of its chain that is to be looked at, 0 for the
    /// chain's first.
    Cell(Key, u64),
    /// Bodies of an opened leaf: the number of the first in the file of bodies, counted from 0, and how many.
    Bodies(u64, u64),
}

impl Default for Item {
    /// The root cell.
    fn default() -> Self
        ensures { result ≡ Item.Cell 1 0 }
    {
        Item::Cell(Key::root(), 0)
    }
}
