//! A page of cells in borrowed bytes.

ghost use Rattle.std.specs.Prelude.{◌≡◌, ◌<◌, ◌≤◌, length, MatchOption, IfOk, IfSome};
ghost use Rattle.nb_record.specs.Fields.{u64_at};
ghost use Rattle.nb_record.specs.Pages.{record_count, page_next, read_cell_page, IsCellPage};
ghost use Rattle.nb_record.specs.Records.{cell_record, cell_of, IsCell};
ghost use Rattle.nb_record.specs.Looking.{index_of_key};

use crate::cell::{CellView, KEY_AT};
use crate::fields::word_at;
use crate::header::{COUNT_AT, NEXT_AT, NO_PAGE, NUMBER_AT, PageError, ZEROS_AT};
use crate::sizes::{CELL_SIZE, CELLS_PER_PAGE, HEADER_SIZE};
use nb_host::PAGE_SIZE;
use nb_key::Key;
use std::marker::Model;

/// A page of cells whose header is of the form, in a page's borrowed bytes. A contract sees it as the bytes.
#[derive(Debug, Drop)]
pub struct CellPage<'a> {
    bytes: &'a [u8],
}

impl<'a> Model for CellPage<'a> {
    ghost use Rattle.std.specs.Prelude.{◌≡◌, ◌≤◌, ℕ, List, length};
    ghost use Rattle.nb_host.specs.declared.page_name.TheConstants.{PAGE_SIZE};
    ghost use Rattle.nb_record.specs.declared.sizes.TheConstants.{CELLS_PER_PAGE};
    ghost use Rattle.nb_record.specs.Fields.{u64_at};

    ghost Value = { List ℕ };

    ghost view = { λ p. p.bytes.now };

    ghost invariant = { λ p. (length p.bytes.now ≡ PAGE_SIZE) × (u64_at 8 p.bytes.now ≤ CELLS_PER_PAGE) };
}

impl<'a> CellPage<'a> {
    /// The page in these bytes, which is to have this number; else the first field of the header that isn't
    /// of the form. The records aren't looked at.
    pub fn check(bytes: &'a [u8], page: u64) -> Result<CellPage<'a>, PageError>
        requires { length bytes.now ≡ PAGE_SIZE }
        ensures value { result ≡ read_cell_page page bytes.now }
        ensures form { IfOk result (λ cells. IsCellPage page cells) }
    {
        if word_at(bytes, NUMBER_AT) != page {
            return Err(PageError::Number);
        }
        if word_at(bytes, COUNT_AT) > CELLS_PER_PAGE {
            return Err(PageError::Count);
        }
        let next = word_at(bytes, NEXT_AT);
        if next != NO_PAGE && next <= page {
            return Err(PageError::Next);
        }
        if word_at(bytes, ZEROS_AT) != 0 {
            return Err(PageError::Next);
        }
        Ok(CellPage { bytes })
    }

    /// How many cells stand on the page.
    pub fn count(&self) -> u64
        ensures value { result ≡ record_count self.now }
        ensures range { result ≤ CELLS_PER_PAGE }
    {
        word_at(self.bytes, COUNT_AT)
    }

    /// The number of the next page, 0 for none.
    pub fn next_page(&self) -> u64
        ensures { result ≡ page_next self.now }
    {
        word_at(self.bytes, NEXT_AT)
    }

    /// The first field of record i as it stands: a key's number, where the record is a cell's.
    pub fn key_at(&self, i: u64) -> u64
        requires { i < record_count self.now }
        ensures { result ≡ u64_at 0 (cell_record i self.now) }
    {
        word_at(self.record(i), KEY_AT)
    }

    /// The cell of record i, where the record is of the form.
    pub fn cell(&self, i: u64) -> Option<CellView<'a>>
        requires { i < record_count self.now }
        ensures { MatchOption result (¬ IsCell (cell_of (cell_record i self.now)))
            (λ cell. IsCell (cell_of (cell_record i self.now)) × (cell ≡ cell_of (cell_record i self.now))) }
    {
        CellView::of(self.record(i))
    }

    /// The index of the first record with this key.
    pub(crate) fn index_of(&self, key: Key) -> Option<u64>
        ensures index { result ≡ index_of_key key self.now }
        ensures range { IfSome result (λ i. i < record_count self.now) }
        ensures found { IfSome result (λ i. u64_at 0 (cell_record i self.now) ≡ key) }
    {
        let number = key.number();
        let count = self.count();
        for i in 0..count {
            if self.key_at(i) == number {
                return Some(i);
            }
        }
        None
    }

    /// The bytes of record i.
    fn record(&self, i: u64) -> &'a [u8]
        requires { i < record_count self.now }
        ensures bytes { result.now ≡ cell_record i self.now }
        ensures length { length result.now ≡ CELL_SIZE }
    {
        let bytes = self.bytes;
        let offset = HEADER_SIZE + CELL_SIZE * i as usize;
        &bytes[offset..offset + CELL_SIZE]
    }
}
