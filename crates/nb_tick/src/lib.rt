//! One tick of the bodies of a file, from one slot to the other: a half kick, a whole drift, a half kick.
//!
//! The bodies stand in a file in Morton order. `tick` kicks and drifts them into a file of their own
//! (`drifting`), sorts that, builds a tree over it, and kicks them into the other slot (`kicking`), with their
//! kicks, which the next tick takes from there. `body_writer` adds bodies to a file, and `slot` has the two
//! slots. In `specs/` `Slots` says which files are which, `State` what a slot and the file of cells hold,
//! `Tick` what a tick leaves and why it answers Damaged, and `Steps` what becomes of each body on the way.
#![tactic(auto)]

mod body_writer;
mod drifting;
mod kicking;
mod leapfrog;
mod slot;
mod tick_error;

pub use leapfrog::tick;
pub use slot::Slot;
pub use tick_error::TickError;

#[cfg(test)]
mod tests;
