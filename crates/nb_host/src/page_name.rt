//! The pages of files, and their names.

/// The length of a page, in bytes. Page number p of a file, from 0 on, is its bytes from `p * PAGE_SIZE` on.
pub const PAGE_SIZE: usize = 4096;

/// A page of a file: number `page`, from 0 on, of its pages of `PAGE_SIZE` bytes. Names are ordered by file,
/// then by page.
#[derive(Clone, Copy, PartialEq, Eq, PartialOrd, Ord, Hash, Debug)]
pub struct PageName {
    /// The file's number.
    pub file: u64,
    /// The page's number in the file.
    pub page: u64,
}
