//! A hash table of the cells of a tree (Warren and Salmon 1993) in a file of pages, through the cache. The
//! low bits of a cell's key name the page at which the chain of pages begins that holds it.
//!
//! `table` makes a table and inserts cells, and `shown` is how a search sees a page that the cache lends. What
//! a file holds that is a table of some cells stands in nb_record. In `specs/` `Chains` has where a search
//! along a chain ends or stops, and `Insertions` what an insertion makes of a file.
#![tactic(auto)]

mod cell_error;
mod laws;
mod shown;
mod table;

pub use cell_error::CellError;
pub use laws::law_most_bits;
pub use table::{CellTable, MOST_BITS};

#[cfg(test)]
mod tests;
