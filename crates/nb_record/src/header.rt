//! The header of a page: its number, its count of records and its next page.

// The offsets of the fields.
pub(crate) const NUMBER_AT: usize = 0;

pub(crate) const COUNT_AT: usize = 8;

pub(crate) const NEXT_AT: usize = 16;

/// The offset of eight zeros.
pub(crate) const ZEROS_AT: usize = 24;

/// The next page's number where there is none.
pub(crate) const NO_PAGE: u64 = 0;

/// The first field of a page's header that isn't of the form.
#[derive(Clone, Copy, PartialEq, Eq, Debug)]
pub enum PageError {
    /// The page's own number isn't the one asked for.
    Number,
    /// The count of records is greater than a page has room for.
    Count,
    /// The next page isn't a later one, or a page of bodies has one, or the zeros behind it aren't zeros.
    Next,
}
