//! The writers of a page. Each changes its record, its count or its next page, and no other byte.

ghost use Rattle.std.specs.Prelude.{◌≡◌, ℕ, ◌+◌, ◌-◌, ◌<◌, ◌≤◌, [], ◌∷◌, ◌++◌, length, if◌then◌else◌};
ghost use Rattle.nb_model.specs.Bytes.{body_bytes, vector_bytes};
ghost use Rattle.nb_model.specs.Limits.{kick_limit};
ghost use Rattle.nb_model.specs.Valid.{IsBelow, IsValidBody};
ghost use Rattle.nb_record.specs.Fields.{u64_bytes, written};
ghost use Rattle.nb_record.specs.Pages.{page_number, record_count, page_next, IsCellPage, IsBodyPage};
ghost use Rattle.nb_record.specs.Records.{body_record, record_bytes};
ghost use Rattle.nb_record.specs.Records.{kick_of, bodies_of, IsBodyRecord, FitsBodyRecord};
ghost use Rattle.nb_record.specs.Records.{cell_bytes, cells_of, FitsCellRecord};
ghost use Rattle.nb_record.specs.Writing.{zero_page, empty_page, with_record, IsZeroPadded};

use crate::body_page::{FLAG_AT, ID_AT, MASS_AT, OUT, X_AT};
use crate::cell::Cell;
use crate::fields::{put_short, put_word, put_words, word_at};
use crate::header::{COUNT_AT, NEXT_AT, NUMBER_AT};
use crate::sizes::{BODIES_PER_PAGE, BODY_SIZE, CELL_SIZE, CELLS_PER_PAGE, HEADER_SIZE, KICK_AT};
use nb_host::PAGE_SIZE;
use nb_model::{Body, V3};

/// Makes of a page's bytes a page of bodies with this number and no body.
pub fn begin_body_page(into: &mut [u8], page: u64)
    requires { length into.old ≡ PAGE_SIZE }
    ensures bytes { into.new ≡ empty_page page }
    ensures number { page_number into.new ≡ page }
    ensures form { IsBodyPage (page_number into.new) into.new }
    ensures count { record_count into.new ≡ 0 }
    ensures bodies { bodies_of into.new ≡ [] }
    ensures padded { IsZeroPadded BODY_SIZE into.new }
{
    clear(into);
    put_word(into, NUMBER_AT, page);
}

/// Makes of a page's bytes a page of cells with this number, no cell and no next page.
pub fn begin_cell_page(into: &mut [u8], page: u64)
    requires { length into.old ≡ PAGE_SIZE }
    ensures bytes { into.new ≡ empty_page page }
    ensures number { page_number into.new ≡ page }
    ensures form { IsCellPage (page_number into.new) into.new }
    ensures next { page_next into.new ≡ 0 }
    ensures count { record_count into.new ≡ 0 }
    ensures cells { cells_of into.new ≡ [] }
    ensures padded { IsZeroPadded CELL_SIZE into.new }
{
    clear(into);
    put_word(into, NUMBER_AT, page);
}

/// Gives a page of cells a next page, which is a later one.
pub fn set_next(into: &mut [u8], page: u64)
    requires size { length into.old ≡ PAGE_SIZE }
    requires form { IsCellPage (page_number into.old) into.old }
    requires later { page_number into.old < page }
    ensures bytes { into.new ≡ written 16 (u64_bytes page) into.old }
    ensures number { page_number into.new ≡ page_number into.old }
    ensures form { IsCellPage (page_number into.new) into.new }
    ensures next { page_next into.new ≡ page }
    ensures count { record_count into.new ≡ record_count into.old }
    ensures cells { cells_of into.new ≡ cells_of into.old }
    ensures padded { IsZeroPadded CELL_SIZE into.old → IsZeroPadded CELL_SIZE into.new }
{
    put_word(into, NEXT_AT, page);
}

/// Adds a cell behind those of a page that has room.
pub fn add_cell(into: &mut [u8], cell: &Cell)
    requires size { length into.old ≡ PAGE_SIZE }
    requires form { IsCellPage (page_number into.old) into.old }
    requires room { record_count into.old < CELLS_PER_PAGE }
    ensures bytes { into.new ≡ with_record CELL_SIZE (cell_bytes cell.now) into.old }
    ensures number { page_number into.new ≡ page_number into.old }
    ensures form { IsCellPage (page_number into.new) into.new }
    ensures next { page_next into.new ≡ page_next into.old }
    ensures count { record_count into.new ≡ record_count into.old + 1 }
    ensures cells { cells_of into.new ≡ cells_of into.old ++ cell.now ∷ [] }
    ensures padded { IsZeroPadded CELL_SIZE into.old → IsZeroPadded CELL_SIZE into.new }
{
    let count = word_at(into, COUNT_AT);
    put_cell(into, HEADER_SIZE + CELL_SIZE * count as usize, cell);
    put_word(into, COUNT_AT, count + 1);
}

/// Adds a body with its kick, in box units a tick, behind those of a page that has room.
pub fn add_body(into: &mut [u8], body: &Body, kick: &V3)
    requires size { length into.old ≡ PAGE_SIZE }
    requires form { IsBodyPage (page_number into.old) into.old }
    requires room { record_count into.old < BODIES_PER_PAGE }
    requires kick { IsBelow kick_limit kick.now }
    ensures bytes { into.new ≡ with_record BODY_SIZE (record_bytes body.now kick.now) into.old }
    ensures number { page_number into.new ≡ page_number into.old }
    ensures form { IsBodyPage (page_number into.new) into.new }
    ensures count { record_count into.new ≡ record_count into.old + 1 }
    ensures kept { (i : ℕ) → i < record_count into.old → body_record i into.new ≡ body_record i into.old }
    ensures valid { IsValidBody body.now → IsBodyRecord (body_record (record_count into.old) into.new) }
    ensures bodies { bodies_of into.new ≡ bodies_of into.old ++ body.now ∷ [] }
    ensures kick { kick_of (body_record (record_count into.old) into.new) ≡ kick.now }
    ensures padded { IsZeroPadded BODY_SIZE into.old → IsZeroPadded BODY_SIZE into.new }
{
    let count = word_at(into, COUNT_AT);
    put_record(into, HEADER_SIZE + BODY_SIZE * count as usize, body, kick);
    put_word(into, COUNT_AT, count + 1);
}

/// Writes a cell's record into the bytes from an offset on.
fn put_cell(into: &mut [u8], offset: usize, cell: &Cell)
    requires { offset + CELL_SIZE ≤ length into.old }
    ensures bytes { into.new ≡ written offset (cell_bytes cell.now) into.old }
    ensures fits { FitsCellRecord cell.now }
{
    let words = [
        cell.key.number(),
        cell.mass,
        cell.centre.x,
        cell.centre.y,
        cell.centre.z,
        cell.first,
        cell.count,
        u64::from(cell.kids),
    ];
    put_words(into, offset, &words);
}

/// Writes the record of a body and its kick into the bytes from an offset on.
fn put_record(into: &mut [u8], offset: usize, body: &Body, kick: &V3)
    requires { offset + BODY_SIZE ≤ length into.old }
    ensures bytes { into.new ≡ written offset (record_bytes body.now kick.now) into.old }
    ensures fits { FitsBodyRecord body.now }
{
    put_body(into, offset, body);
    put_kick(into, offset + KICK_AT, kick);
}

/// Writes a body into the bytes from an offset on.
fn put_body(into: &mut [u8], offset: usize, body: &Body)
    requires { offset + KICK_AT ≤ length into.old }
    ensures bytes { into.new ≡ written offset (body_bytes body.now) into.old }
    ensures fits { FitsBodyRecord body.now }
{
    put_word(into, offset + ID_AT, body.id);
    put_short(into, offset + MASS_AT, body.mass);
    put_short(into, offset + FLAG_AT, flag_of(body.out));
    let words = [
        body.at.x,
        body.at.y,
        body.at.z,
        body.v.x.cast_unsigned(),
        body.v.y.cast_unsigned(),
        body.v.z.cast_unsigned(),
    ];
    put_words(into, offset + X_AT, &words);
}

/// Writes a kick into the bytes from an offset on.
fn put_kick(into: &mut [u8], offset: usize, kick: &V3)
    requires { offset + (BODY_SIZE - KICK_AT) ≤ length into.old }
    ensures { into.new ≡ written offset (vector_bytes kick.now) into.old }
{
    let words = [
        kick.x.cast_unsigned(),
        kick.y.cast_unsigned(),
        kick.z.cast_unsigned(),
    ];
    put_words(into, offset, &words);
}

/// The flag of a body.
fn flag_of(out: bool) -> u32
    ensures { result ≡ (if out then 1 else 0) }
{
    if out { OUT } else { 0 }
}

/// Makes all bytes of a page zeros.
fn clear(into: &mut [u8])
    requires { length into.old ≡ PAGE_SIZE }
    ensures { into.new ≡ zero_page }
{
    for byte in into.iter_mut() {
        *byte = 0;
    }
}
