//! Walks down a tree in its files, one for each body on which a force is wanted. A walk stops where it needs
//! a page that isn't shown, and goes on once it is: so it reads nothing and takes no memory.
//!
//! A `Walk` sums the pulls on its target, and a `Pool` has many of them wait for their pages together. A
//! `Course` hands out what acts on its target, term by term: cells that its `Opening` takes as one mass,
//! and bodies. `tally` has what a walk has taken, `sight` looks a cell up on a page of its key's chain, and
//! `items` has what is left, a stack with the next item on top.
//!
//! A pool's walks share their items, each of which (`shared`) has a set of walks. They stand in a `group`:
//! `passing` looks each up once for all its walks, in any order, `meeting` has their tallies take what was
//! found, `alone` is the way in order for a walk where the shared items have no room left, and `needs` says
//! for which page each walk waits.
//!
//! The definitions stand in `specs/`: the interaction list in `Terms`, what is left and the sums over it in
//! `Items` and `Left`, one look in `Looks`, what a lender shows in `Shown`, a step in `Course`, a visit in
//! `Walk`, and an advance in `Pool`. `laws` ties them to the definition's force.
#![tactic(auto)]

mod alone;
mod course;
mod group;
mod item;
mod items;
mod laws;
mod meeting;
mod needs;
mod opening;
mod passing;
mod pool;
mod shared;
mod sight;
mod step;
mod tally;
mod term;
mod visit;
mod walk;

pub use course::Course;
pub use item::Item;
pub use laws::{law_interaction_list, law_pool, law_remaining, law_walk};
pub use opening::{ByAngle, Opening};
pub use pool::Pool;
pub use step::Step;
pub use term::Term;
pub use visit::Visit;
pub use walk::Walk;

#[cfg(test)]
mod tests;
