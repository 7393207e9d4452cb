//! A page of bodies in borrowed bytes.

ghost use Rattle.std.specs.Prelude.{◌≡◌, ◌<◌, ◌≤◌, length, MatchOption, IfOk};
ghost use Rattle.nb_model.specs.declared.body.Body.{Body};
ghost use Rattle.nb_model.specs.Limits.{kick_limit};
ghost use Rattle.nb_model.specs.Valid.{IsBelow};
ghost use Rattle.nb_record.specs.Pages.{record_count, read_body_page, IsBodyPage};
ghost use Rattle.nb_record.specs.Records.{body_record, body_of, kick_of, IsBodyRecord};

use crate::fields::{WORD, short_at, signed_word_at, word_at};
use crate::header::{COUNT_AT, NEXT_AT, NO_PAGE, NUMBER_AT, PageError, ZEROS_AT};
use crate::sizes::{BODIES_PER_PAGE, BODY_SIZE, HEADER_SIZE, KICK_AT};
use nb_host::PAGE_SIZE;
use nb_model::{At, Body, KICK_LIMIT, V3};
use std::marker::Model;

// The offsets of a body's fields in its record.
pub(crate) const ID_AT: usize = 0;

pub(crate) const MASS_AT: usize = 8;

pub(crate) const FLAG_AT: usize = 12;

pub(crate) const X_AT: usize = 16;

const Y_AT: usize = 24;

const Z_AT: usize = 32;

const VELOCITY_X_AT: usize = 40;

const VELOCITY_Y_AT: usize = 48;

const VELOCITY_Z_AT: usize = 56;

/// The flag of a body that has left the box. Any other's is 0.
pub(crate) const OUT: u32 = 1;

/// A page of bodies whose header is of the form, in a page's borrowed bytes. A contract sees it as the bytes.
#[derive(Debug, Drop)]
pub struct BodyPage<'a> {
    bytes: &'a [u8],
}

impl<'a> Model for BodyPage<'a> {
    ghost use Rattle.std.specs.Prelude.{◌≡◌, ◌≤◌, ℕ, List, length};
    ghost use Rattle.nb_host.specs.declared.page_name.TheConstants.{PAGE_SIZE};
    ghost use Rattle.nb_record.specs.declared.sizes.TheConstants.{BODIES_PER_PAGE};
    ghost use Rattle.nb_record.specs.Fields.{u64_at};

    ghost Value = { List ℕ };

    ghost view = { λ p. p.bytes.now };

    ghost invariant = { λ p. (length p.bytes.now ≡ PAGE_SIZE) × (u64_at 8 p.bytes.now ≤ BODIES_PER_PAGE) };
}

impl<'a> BodyPage<'a> {
    /// The page in these bytes, which is to have this number; else the first field of the header that isn't
    /// of the form. The records aren't looked at.
    pub fn check(bytes: &'a [u8], page: u64) -> Result<BodyPage<'a>, PageError>
        requires { length bytes.now ≡ PAGE_SIZE }
        ensures value { result ≡ read_body_page page bytes.now }
        ensures form { IfOk result (λ bodies. IsBodyPage page bodies) }
    {
        if word_at(bytes, NUMBER_AT) != page {
            return Err(PageError::Number);
        }
        if word_at(bytes, COUNT_AT) > BODIES_PER_PAGE {
            return Err(PageError::Count);
        }
        if word_at(bytes, NEXT_AT) != NO_PAGE {
            return Err(PageError::Next);
        }
        if word_at(bytes, ZEROS_AT) != 0 {
            return Err(PageError::Next);
        }
        Ok(BodyPage { bytes })
    }

    /// How many bodies stand on the page.
    pub fn count(&self) -> u64
        ensures value { result ≡ record_count self.now }
        ensures range { result ≤ BODIES_PER_PAGE }
    {
        word_at(self.bytes, COUNT_AT)
    }

    /// The body of record i, where the record is of the form, its body valid and its kick in range.
    pub fn body(&self, i: u64) -> Option<Body>
        requires { i < record_count self.now }
        ensures { MatchOption result (¬ IsBodyRecord (body_record i self.now))
            (λ body. IsBodyRecord (body_record i self.now) × (body ≡ body_of (body_record i self.now))) }
    {
        read_body(self.record(i))
    }

    /// The kick of record i, in box units a tick, of a record that has a body.
    pub fn kick(&self, i: u64) -> V3
        requires within { i < record_count self.now }
        requires form { IsBodyRecord (body_record i self.now) }
        ensures value { result ≡ kick_of (body_record i self.now) }
        ensures range { IsBelow kick_limit result }
    {
        read_kick(self.record(i))
    }

    /// The bytes of record i.
    fn record(&self, i: u64) -> &'a [u8]
        requires { i < record_count self.now }
        ensures bytes { result.now ≡ body_record i self.now }
        ensures length { length result.now ≡ BODY_SIZE }
    {
        let bytes = self.bytes;
        let offset = HEADER_SIZE + BODY_SIZE * i as usize;
        &bytes[offset..offset + BODY_SIZE]
    }
}

/// The body of a record's bytes, where they are of the form, it is valid and its kick in range.
fn read_body(bytes: &[u8]) -> Option<Body>
    requires { length bytes.now ≡ BODY_SIZE }
    ensures { MatchOption result (¬ IsBodyRecord bytes.now)
        (λ body. IsBodyRecord bytes.now × (body ≡ body_of bytes.now)) }
{
    let flag = short_at(bytes, FLAG_AT);
    if flag > OUT {
        return None;
    }
    let body = Body {
        id: word_at(bytes, ID_AT),
        mass: short_at(bytes, MASS_AT),
        out: flag == OUT,
        at: At {
            x: word_at(bytes, X_AT),
            y: word_at(bytes, Y_AT),
            z: word_at(bytes, Z_AT),
        },
        v: V3 {
            x: signed_word_at(bytes, VELOCITY_X_AT),
            y: signed_word_at(bytes, VELOCITY_Y_AT),
            z: signed_word_at(bytes, VELOCITY_Z_AT),
        },
    };
    if !body.is_valid() {
        return None;
    }
    if !read_kick(bytes).is_below(KICK_LIMIT) {
        return None;
    }
    Some(body)
}

/// The kick of a record's bytes, of any size.
fn read_kick(bytes: &[u8]) -> V3
    requires { length bytes.now ≡ BODY_SIZE }
    ensures { result ≡ kick_of bytes.now }
{
    V3 {
        x: signed_word_at(bytes, KICK_AT),
        y: signed_word_at(bytes, KICK_AT + WORD),
        z: signed_word_at(bytes, KICK_AT + 2 * WORD),
    }
}
