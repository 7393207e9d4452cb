//! The names and sizes of a tree's files.

/// A tree in its files: which files they are, and what they hold.
#[derive(Clone, Copy, PartialEq, Eq, Debug)]
pub struct Tree {
    /// The number of the file of bodies. They stand there in Morton order, those that have left the box last.
    pub bodies: u64,
    /// The number of the file of cells, a table in which each key leads to a chain of pages.
    pub cells: u64,
    /// How many of a key's low bits name its chain.
    pub bits: u32,
    /// How many pages the file of cells has.
    pub pages: u64,
    /// How many bodies are in the box.
    pub count: u64,
    /// Their mass.
    pub mass: u64,
    /// How many cells the tree has.
    pub nodes: u64,
}
