//! The two slots of a run's bodies, and the files of a tick.

ghost use Rattle.std.specs.Prelude.{◌≡◌};
ghost use Rattle.nb_tick.specs.Slots.{slot_file, slot_of, other_slot};

/// The file of the bodies after their drift.
pub(crate) const DRIFTED: u64 = 5;

/// The file of the same bodies in Morton order.
pub(crate) const SORTED: u64 = 6;

/// The file of the cells of their tree.
pub(crate) const CELLS: u64 = 7;

/// Where the bodies of a run stand, in Morton order: after an even number of ticks, or after an odd one.
#[derive(Clone, Copy, PartialEq, Eq, Debug)]
pub enum Slot {
    /// After an even number of ticks.
    Even,
    /// After an odd number of ticks.
    Odd,
}

impl Slot {
    /// The slot of the bodies after so many ticks.
    pub fn of(ticks: u64) -> Slot
        ensures { slot_file result ≡ slot_of ticks }
    {
        if ticks % 2 == 0 {
            Slot::Even
        } else {
            Slot::Odd
        }
    }

    /// The number of the slot's file.
    pub fn file(self) -> u64
        ensures { result ≡ slot_file self }
    {
        match self {
            Slot::Even => 3,
            Slot::Odd => 4,
        }
    }

    /// The slot to which a tick from this one leads.
    pub fn other(self) -> Slot
        ensures { result ≡ other_slot self }
    {
        match self {
            Slot::Even => Slot::Odd,
            Slot::Odd => Slot::Even,
        }
    }
}
