//! The journal of a run: which parameters it has, and which legs and ticks were done. It is a write-ahead
//! journal, in which one byte, the gate, makes an entry count.
//!
//! `find` reads it; `prepare`, `start_gate` and `Journal::append` write it, so that a crash at any moment
//! leaves it with or without the new entry. The meanings stand in `specs/`: `Form` is which file is which
//! journal, and `Images` is what the calls make of it, and what a crash may leave.
#![tactic(auto)]

mod entry;
mod error;
mod finding;
mod form;
mod heading;
mod journal;
mod laws;
mod reading;
mod ready;

pub use entry::Entry;
pub use error::JournalError;
pub use finding::{Opened, find};
pub use journal::Journal;
pub use laws::{
    law_counters, law_every_file, law_fresh_alone, law_kept, law_not_both, law_numbers,
    law_one_damage, law_one_journal, law_ready,
};
pub use ready::{Ready, prepare, start_gate};

#[cfg(test)]
mod tests;
