//! Keys of cells: the interleaved bits of a position behind a place bit (Warren and Salmon 1993).
//!
//! The definitions stand in `specs/`: `Morton` has the key of a list of octants, of a cell and of a position,
//! and the range of the keys under a cell. `laws` has what is proved of them: above all, the positions of a
//! cell are a range of keys.
#![tactic(auto)]

mod key;
mod laws;
mod spread;

pub use key::Key;
pub use laws::{law_key_at, law_octants, law_range, law_same_cell};

#[cfg(test)]
mod tests;
