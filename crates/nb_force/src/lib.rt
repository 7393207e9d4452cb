//! The half kicks of the bodies of a tree, each found by a walk over pages that a cache lends.
//!
//! `kicks` takes the unescaped bodies in Morton order, a pool of them at a time, and hands each with its half
//! kick to a `Receiver`. `window` shows a cache's resident pages to walks, and `rounds` has the walks of a pool
//! go on until they are finished, with the pages that they wait for. In `specs/` `Receiver` says what a receiver
//! means, and `Kicks` what it is handed and why `kicks` answers Damaged.
#![tactic(auto)]

mod force_error;
mod groups;
mod receiver;
mod rounds;
mod window;

pub use force_error::ForceError;
pub use groups::kicks;
pub use receiver::Receiver;
pub use window::Window;

#[cfg(test)]
mod tests;
