//! A cell, and a cell's record in borrowed bytes.

ghost use Rattle.std.specs.Prelude.{◌≡◌, ◌^◌, ◌<◌, ◌≤◌, ◌↔◌, IsTrue, length, MatchOption};
ghost use Rattle.nb_model.specs.Limits.{deepest_level, most_bodies};
ghost use Rattle.nb_model.specs.Valid.{IsInBox};
ghost use Rattle.nb_key.specs.Morton.{IsKey};
ghost use Rattle.nb_record.specs.Records.{cell_of, IsCell};

use crate::fields::word_at;
use crate::sizes::CELL_SIZE;
use nb_key::Key;
use nb_model::{At, DEEPEST_LEVEL, MOST_BODIES};
use std::marker::Model;

// The offsets of the fields in the record.
pub(crate) const KEY_AT: usize = 0;

const MASS_AT: usize = 8;

const X_AT: usize = 16;

const Y_AT: usize = 24;

const Z_AT: usize = 32;

const FIRST_AT: usize = 40;

const COUNT_AT: usize = 48;

const KIDS_AT: usize = 56;

/// The mass of a cell is at most this.
const MOST_MASS: u64 = 1 << 56;

/// The bits of kids are below this, one for each octant.
const KIDS_LIMIT: u64 = 1 << 8;

/// The keys of the cells at the deepest level, which have no kids, are those from here on.
const DEEPEST_KEYS: u64 = 1 << (3 * DEEPEST_LEVEL);

/// A cell of the oct-tree.
#[derive(Clone, Copy, PartialEq, Eq, Debug)]
pub struct Cell {
    pub key: Key,
    /// The mass of the cell's bodies.
    pub mass: u64,
    /// Their centre of mass, in box units, rounded down.
    pub centre: At,
    /// The number of the cell's first body in the file of bodies, counted from 0.
    pub first: u64,
    /// How many bodies the cell has.
    pub count: u64,
    /// Bit j says that octant j isn't empty. A leaf has 0.
    pub kids: u8,
}

/// A cell's record in borrowed bytes, of the form. A contract sees it as the cell.
#[derive(Debug, Drop)]
pub struct CellView<'a> {
    bytes: &'a [u8],
}

impl<'a> Model for CellView<'a> {
    ghost use Rattle.std.specs.Prelude.{◌≡◌, length};
    ghost use Rattle.nb_record.specs.declared.cell.Cell.{Cell};
    ghost use Rattle.nb_record.specs.declared.sizes.TheConstants.{CELL_SIZE};
    ghost use Rattle.nb_record.specs.Records.{cell_of, IsCell};

    ghost Value = { Cell };

    ghost view = { λ v. cell_of v.bytes.now };

    ghost invariant = { λ v. (length v.bytes.now ≡ CELL_SIZE) × IsCell (cell_of v.bytes.now) };
}

impl<'a> CellView<'a> {
    /// The cell of a record's bytes, where they are of the form.
    pub(crate) fn of(bytes: &'a [u8]) -> Option<CellView<'a>>
        requires { length bytes.now ≡ CELL_SIZE }
        ensures { MatchOption result (¬ IsCell (cell_of bytes.now))
            (λ cell. IsCell (cell_of bytes.now) × (cell ≡ cell_of bytes.now)) }
    {
        if !is_cell(bytes) {
            return None;
        }
        Some(CellView { bytes })
    }

    /// The key.
    pub fn key(&self) -> Key
        ensures value { result ≡ self.now.key }
        ensures key { IsKey result }
    {
        match Key::from_number(word_at(self.bytes, KEY_AT)) {
            Some(key) => key,
            None => unreachable!(),
        }
    }

    /// The mass of the cell's bodies.
    pub fn mass(&self) -> u64
        ensures value { result ≡ self.now.mass }
        ensures some { 1 ≤ result }
        ensures range { result ≤ 2 ^ 56 }
    {
        word_at(self.bytes, MASS_AT)
    }

    /// Their centre of mass, in box units, rounded down.
    pub fn centre(&self) -> At
        ensures value { result ≡ self.now.centre }
        ensures range { IsInBox result }
    {
        At {
            x: word_at(self.bytes, X_AT),
            y: word_at(self.bytes, Y_AT),
            z: word_at(self.bytes, Z_AT),
        }
    }

    /// The number of the cell's first body in the file of bodies, counted from 0.
    pub fn first(&self) -> u64
        ensures value { result ≡ self.now.first }
        ensures range { result < most_bodies }
    {
        word_at(self.bytes, FIRST_AT)
    }

    /// How many bodies the cell has.
    pub fn count(&self) -> u64
        ensures value { result ≡ self.now.count }
        ensures some { 1 ≤ result }
        ensures range { result ≤ most_bodies }
    {
        word_at(self.bytes, COUNT_AT)
    }

    /// Bit j says that octant j isn't empty. A leaf has 0.
    pub fn kids(&self) -> u8
        ensures value { result ≡ self.now.kids }
        ensures deepest { 8 ^ deepest_level ≤ self.now.key → result ≡ 0 }
    {
        word_at(self.bytes, KIDS_AT) as u8
    }
}

/// Whether the bytes of a record are a cell's.
fn is_cell(bytes: &[u8]) -> bool
    requires { length bytes.now ≡ CELL_SIZE }
    ensures { IsTrue result ↔ IsCell (cell_of bytes.now) }
{
    let number = word_at(bytes, KEY_AT);
    if Key::from_number(number).is_none() {
        return false;
    }
    let mass = word_at(bytes, MASS_AT);
    let centre = At {
        x: word_at(bytes, X_AT),
        y: word_at(bytes, Y_AT),
        z: word_at(bytes, Z_AT),
    };
    let first = word_at(bytes, FIRST_AT);
    let count = word_at(bytes, COUNT_AT);
    let kids = word_at(bytes, KIDS_AT);
    let are_bodies = first < MOST_BODIES && 1 <= count && count <= MOST_BODIES;
    let are_kids = kids == 0 || kids < KIDS_LIMIT && number < DEEPEST_KEYS;
    1 <= mass && mass <= MOST_MASS && centre.is_in_box() && are_bodies && are_kids
}
