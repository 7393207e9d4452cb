//! The arithmetic of a pull, in whole numbers, and the tick of a list of bodies by the definition itself.
//!
//! `root`, `trunc_div`, `pull` and `opens` are what a force is made of, and take no memory.
//! `accelerate` and `drift_body` are what becomes of one body by a half kick and by a drift.
//! `plain_tick` has no keys and no pages: it is the definition run, for small lists and for comparison.
#![tactic(auto)]

mod cell;
mod distance;
mod estimate;
mod inverse_root;
mod leapfrog;
mod monopole;
mod opening;
mod quotient;
mod recursion;
mod square_root;
#[cfg(test)]
mod tests;

pub use leapfrog::{accelerate, drift_body, plain_tick};
pub use monopole::pull;
pub use opening::opens;
pub use quotient::trunc_div;
pub use square_root::root;
