//! The sizes of a page's parts. Code and proofs name them and never write the number.

/// The length of a page's header, in bytes. The records stand behind it, one after the other.
pub const HEADER_SIZE: usize = 32;

/// The length of a body's record, in bytes: those of the body, and behind them the three words of its kick.
pub const BODY_SIZE: usize = 88;

/// The offset of the kick in a body's record.
pub const KICK_AT: usize = 64;

/// The length of a cell's record, in bytes.
pub const CELL_SIZE: usize = 64;

/// The most records of a page of bodies.
pub const BODIES_PER_PAGE: u64 = 46;

/// The most records of a page of cells.
pub const CELLS_PER_PAGE: u64 = 63;
