//! Files of bodies: a body and its kick read from one, a body added to one, and one sorted into another.
//!
//! `body_file` reads and adds bodies through the cache, `order` has the two orders of bodies, and `sorter`
//! copies a file's bodies into another file in an order. What a file of bodies is, and what the sorted list
//! of some bodies is, stands in nb_record.
#![tactic(auto)]

mod body_file;
mod order;
mod order_error;
mod sorter;

pub use body_file::{KickedBody, body_at, kick_at, kicked_at, page_name, push_body};
pub use order::{ById, ByKey, Order};
pub use order_error::OrderError;
pub use sorter::{Sorter, reorder};
