//! The tree of a file of bodies (Barnes and Hut 1986), built in one pass over the bodies in Morton order.
//!
//! `build` reads each unescaped body once and inserts each cell once. `reader` reads bodies one ahead, `sums`
//! has a cell's exact sums, `closed` a cell whose bodies were all read, `maker` inserts cells into the table,
//! and `pass` goes through a cell, octant by octant. What a tree in its files is stands in nb_record. In
//! `specs/` `Builds` says what a build answers, `Refusals` why it answers Damaged, and `Passes` what a pass
//! through a cell makes.
#![tactic(auto)]

mod builder;
mod closed;
mod maker;
mod pass;
mod reader;
mod sums;
mod tree_error;

pub use builder::{Builder, build};
pub use tree_error::TreeError;

#[cfg(test)]
mod generated_tests;
#[cfg(test)]
mod tests;
