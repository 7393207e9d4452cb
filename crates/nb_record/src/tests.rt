//! Pages with known answers.

ghost use Rattle.std.specs.Prelude.{◌==◌, if◌then◌else◌, Some, None};
ghost use Rattle.nb_model.specs.Limits.{kick_limit};
ghost use Rattle.nb_model.specs.Valid.{IsBelow};

use crate::{
    BodyPage, Cell, CellPage, Lender, Look, PageError, add_body, add_cell, begin_body_page,
    begin_cell_page, look, set_next,
};
use nb_host::PAGE_SIZE;
use nb_key::Key;
use nb_model::{At, Body, V3};
use std::process::Abort;
use std::test::Fail;

/// A lender that shows one page of cells, and no page of bodies.
#[derive(Drop)]
struct OnePage<'a> {
    page: u64,
    bytes: &'a [u8; PAGE_SIZE],
}

impl<'a> Lender for OnePage<'a> {
    ghost cells = { λ lender page. if lender.page == page then Some lender.bytes.now else None };

    ghost bodies = { λ lender page. None };

    fn cell_page(&self, page: u64) -> Option<Result<CellPage<'_>, PageError>> {
        if self.page != page {
            return None;
        }
        let bytes = self.bytes;
        Some(CellPage::check(bytes, page))
    }

    fn body_page(&self, _page: u64) -> Option<Result<BodyPage<'_>, PageError>> {
        None
    }
}

/// What a look answers, with the cell that it found.
#[derive(PartialEq, Eq, Debug, Drop)]
enum Answer {
    Found(Cell),
    Next(u64),
    Wants(u64),
    Gone,
    Bad(u64),
}

/// What a look for a key on page 2 answers where these bytes are shown as this page.
fn look_on_page_2(page: u64, bytes: &[u8; PAGE_SIZE], key: Key) -> Answer {
    let lender = OnePage { page, bytes };
    match look(&lender, key, 2) {
        Look::Found(cell) => Answer::Found(Cell {
            key: cell.key(),
            mass: cell.mass(),
            centre: cell.centre(),
            first: cell.first(),
            count: cell.count(),
            kids: cell.kids(),
        }),
        Look::Next(next) => Answer::Next(next),
        Look::Wants(wanted) => Answer::Wants(wanted),
        Look::Gone => Answer::Gone,
        Look::Bad(bad) => Answer::Bad(bad),
    }
}

#[test]
fn a_look_for_a_key(rt: HostRuntime) -> Result<(), Fail> {
    let here = Key::from_number(9).ok_or("9 is a key")?;
    let other = Key::from_number(8).ok_or("8 is a key")?;
    let mut bytes = [255; PAGE_SIZE];
    begin_cell_page(&mut bytes, 2);
    let cell = Cell {
        key: here,
        mass: 3,
        centre: At { x: 1, y: 2, z: 3 },
        first: 0,
        count: 1,
        kids: 0,
    };
    add_cell(&mut bytes, &cell);
    assert_eq!(rt; look_on_page_2(2, &bytes, here), Answer::Found(cell));
    assert_eq!(rt; look_on_page_2(2, &bytes, other), Answer::Gone);
    set_next(&mut bytes, 5);
    assert_eq!(rt; look_on_page_2(2, &bytes, here), Answer::Found(cell));
    assert_eq!(rt; look_on_page_2(2, &bytes, other), Answer::Next(5));
    bytes[8] = 64;
    assert_eq!(rt; look_on_page_2(2, &bytes, other), Answer::Bad(2));
    assert_eq!(rt; look_on_page_2(3, &bytes, other), Answer::Wants(2));
    Ok(())
}

/// Makes of the bytes page 4, with one body and its kick.
fn put_on_page_4(bytes: &mut [u8; PAGE_SIZE], body: &Body, kick: &V3)
    requires { IsBelow kick_limit kick.now }
{
    begin_body_page(bytes, 4);
    add_body(bytes, body, kick);
}

/// How many bodies page 4 has, and the first of them with its kick.
fn first_on_page_4(bytes: &[u8; PAGE_SIZE]) -> Option<(u64, Body, V3)> {
    let page = BodyPage::check(bytes, 4).ok()?;
    let count = page.count();
    if count == 0 {
        return None;
    }
    let body = page.body(0)?;
    Some((count, body, page.kick(0)))
}

#[test]
fn a_body_on_a_page(rt: HostRuntime) -> Result<(), Fail> {
    let body = Body {
        id: 7,
        mass: 3,
        out: false,
        at: At { x: 5, y: 6, z: 7 },
        v: V3 { x: -1, y: 2, z: 0 },
    };
    let kick = V3 { x: 9, y: -2, z: 0 };
    let mut bytes = [255; PAGE_SIZE];
    put_on_page_4(&mut bytes, &body, &kick);
    // offsets, and the bytes there
    let wanted = [
        (0, 4),
        (8, 1),
        (32, 7),
        (40, 3),
        (48, 5),
        (71, 0),
        (72, 255),
        (79, 255),
        (80, 2),
        (96, 9),
        (103, 0),
        (104, 254),
        (111, 255),
        (119, 0),
        (120, 0),
    ];
    for (offset, byte) in wanted {
        assert_eq!(rt; (offset, bytes.get(offset).copied()), (offset, Some(byte)));
    }
    assert_eq!(rt; first_on_page_4(&bytes), Some((1, body, kick)));
    bytes[103] = 16;
    assert_eq!(rt; first_on_page_4(&bytes), None);
    bytes[103] = 0;
    bytes[44] = 2;
    assert_eq!(rt; first_on_page_4(&bytes), None);
    Ok(())
}

/// What the checks of a page of cells and of a page of bodies refuse in page 2, with these bytes at the
/// offsets 9, 16 and 24, where it is asked for under this number.
fn refused(number: u64, count: u8, next: u8, zero: u8) -> [Option<PageError>; 2] {
    let mut bytes = [0; PAGE_SIZE];
    begin_cell_page(&mut bytes, 2);
    bytes[9] = count;
    bytes[16] = next;
    bytes[24] = zero;
    [
        CellPage::check(&bytes, number).err(),
        BodyPage::check(&bytes, number).err(),
    ]
}

#[test]
fn the_first_field_that_is_not_of_the_form(rt: HostRuntime) -> Result<(), Fail> {
    let number = Some(PageError::Number);
    let count = Some(PageError::Count);
    let next = Some(PageError::Next);
    // the number that is asked for, the bytes at the three offsets, and what is refused
    let cases = [
        (2, 0, 0, 0, [None, None]),
        (2, 0, 0, 1, [next, next]),
        (2, 0, 2, 0, [next, next]),
        (2, 0, 3, 0, [None, next]),
        (2, 1, 1, 0, [count, count]),
        (1, 1, 1, 0, [number, number]),
    ];
    for (asked, high, later, zero, errors) in cases {
        assert_eq!(rt; refused(asked, high, later, zero), errors);
    }
    Ok(())
}
