//! Walks over small trees with known answers.

ghost use Rattle.std.specs.Prelude.{◌≡◌, ◌==◌, ◌<◌, ◌≤◌, ◌^◌, ◌&&◌, if◌then◌else◌, length, Some, None};
ghost use Rattle.nb_model.specs.Valid.{AreInRange};

use crate::{ByAngle, Course, Step, Term};
use nb_fixed::pull;
use nb_host::{PAGE_SIZE, PageName};
use nb_key::Key;
use nb_model::{At, Body, Edge, Params, V3};
use nb_record::{
    BODIES_PER_PAGE, BodyPage, CELLS_PER_PAGE, Cell, CellPage, Lender, PageError, Tree, add_body,
    add_cell, begin_body_page, begin_cell_page,
};
use std::test::Fail;

mod pools;

/// The first page of a file of cells and of a file of bodies, each shown or not.
#[derive(Drop)]
struct Pages<'a> {
    cells: &'a [u8; PAGE_SIZE],
    bodies: &'a [u8; PAGE_SIZE],
    shows_cells: bool,
    shows_bodies: bool,
}

impl<'a> Lender for Pages<'a> {
    ghost cells = { λ p page. if (page == 0) && p.shows_cells then Some p.cells.now else None };

    ghost bodies = { λ p page. if (page == 0) && p.shows_bodies then Some p.bodies.now else None };

    fn cell_page(&self, page: u64) -> Option<Result<CellPage<'_>, PageError>> {
        if page != 0 || !self.shows_cells {
            return None;
        }
        let bytes = self.cells;
        Some(CellPage::check(bytes, page))
    }

    fn body_page(&self, page: u64) -> Option<Result<BodyPage<'_>, PageError>> {
        if page != 0 || !self.shows_bodies {
            return None;
        }
        let bytes = self.bodies;
        Some(BodyPage::check(bytes, page))
    }
}

const TREE: Tree = Tree {
    bodies: 3,
    cells: 7,
    bits: 0,
    pages: 1,
    count: 3,
    mass: 3,
    nodes: 23,
};

/// The names of the first page of cells, and of bodies.
const CELLS: PageName = PageName { file: 7, page: 0 };

const BODIES: PageName = PageName { file: 3, page: 0 };

/// The parameters with the opening angle `theta_num` / 1.
fn params(theta_num: u64, leaf: u64) -> Params
    ensures { result ≡ record {
      grav = 1000200000000000;
      theta_num = theta_num;
      theta_den = 1;
      soft = 1;
      leaf = leaf;
      every = 1;
      edge = Edge.Open;
    } }
{
    Params {
        grav: 1_000_200_000_000_000,
        theta_num,
        theta_den: 1,
        soft: 1,
        leaf,
        every: 1,
        edge: Edge::Open,
    }
}

/// A position on the first axis, in box units.
fn along(x: u64) -> At
    ensures { result ≡ record { x = x; y = 0; z = 0 } }
{
    At { x, y: 0, z: 0 }
}

/// A body of mass 1.
fn body(id: u64, x: u64) -> Body {
    Body {
        id,
        mass: 1,
        out: false,
        at: along(x),
        v: V3 { x: 0, y: 0, z: 0 },
    }
}

/// Adds a cell with this key to page 0, where it has room: its mass and count, its centre on the first axis,
/// its first body and its kids.
fn put_cell(into: &mut [u8], number: u64, count: u64, x: u64, first: u64, kids: u8)
    requires { length into.old ≡ PAGE_SIZE }
{
    let Some(key) = Key::from_number(number) else {
        return;
    };
    let cell = Cell {
        key,
        mass: count,
        centre: along(x),
        first,
        count,
        kids,
    };
    match CellPage::check(into, 0) {
        Ok(page) => {
            if page.count() >= CELLS_PER_PAGE {
                return;
            }
        }
        Err(_) => return,
    }
    add_cell(into, &cell);
}

/// Adds a body to page 0, where it has room.
fn put_body(into: &mut [u8], body: &Body)
    requires { length into.old ≡ PAGE_SIZE }
{
    match BodyPage::check(into, 0) {
        Ok(page) => {
            if page.count() >= BODIES_PER_PAGE {
                return;
            }
        }
        Err(_) => return,
    }
    add_body(into, body, &V3 { x: 0, y: 0, z: 0 });
}

/// The first answer of a course that isn't Moved, within 64 steps.
fn answer(course: &mut Course<ByAngle>, params: &Params, lender: &Pages<'_>) -> Step
    requires { AreInRange params.now }
{
    for _ in 0..64 {
        let step = course.step(params, &TREE, lender);
        if step != Step::Moved {
            return step;
        }
    }
    Step::Moved
}

/// Three bodies of mass 1, at 0, 1048577 and 1048580 on the first axis.
fn put_bodies(into: &mut [u8])
    requires { length into.old ≡ PAGE_SIZE }
{
    begin_body_page(into, 0);
    put_body(into, &body(1, 0));
    put_body(into, &body(2, 1_048_577));
    put_body(into, &body(3, 1_048_580));
}

/// The 23 cells of their tree with one body a leaf: all three lie in one cell down to level 19.
fn put_tree(into: &mut [u8])
    requires { length into.old ≡ PAGE_SIZE }
{
    begin_cell_page(into, 0);
    for level in 0..20u32 {
        let kids = if level < 19 { 1 } else { 17 };
        put_cell(into, 1 << (3 * level), 3, 699_052, 0, kids);
    }
    put_cell(into, 1 << 60, 1, 0, 0, 0);
    put_cell(into, (1 << 60) + 4, 2, 1_048_578, 1, 1);
    put_cell(into, (1 << 63) + 32, 2, 1_048_578, 1, 0);
}

#[test]
fn a_walk_waits_for_its_pages(rt: HostRuntime) -> Result<(), Fail> {
    let mut cells = [0; PAGE_SIZE];
    let mut bodies = [0; PAGE_SIZE];
    put_tree(&mut cells);
    put_bodies(&mut bodies);
    let mut pages = Pages {
        cells: &cells,
        bodies: &bodies,
        shows_cells: false,
        shows_bodies: false,
    };
    let params = params(1, 1);
    let mut course = Course::start(ByAngle, along(0));
    assert_eq!(rt; answer(&mut course, &params, &pages), Step::Wants(CELLS));
    assert_eq!(rt; answer(&mut course, &params, &pages), Step::Wants(CELLS));
    pages.shows_cells = true;
    assert_eq!(rt; answer(&mut course, &params, &pages), Step::Wants(BODIES));
    pages.shows_cells = false;
    assert_eq!(rt; answer(&mut course, &params, &pages), Step::Wants(BODIES));
    pages.shows_bodies = true;
    assert_eq!(rt;
        answer(&mut course, &params, &pages),
        Step::Term(Term::Body(body(1, 0)))
    );
    assert_eq!(rt; answer(&mut course, &params, &pages), Step::Wants(CELLS));
    pages.shows_cells = true;
    let far = Step::Term(Term::Cell(2, along(1_048_578)));
    assert_eq!(rt; answer(&mut course, &params, &pages), far);
    assert_eq!(rt; answer(&mut course, &params, &pages), Step::Finished);
    assert_eq!(rt; answer(&mut course, &params, &pages), Step::Finished);
    assert_eq!(rt;
        pull(&params, &along(0), 2, &along(1_048_578)),
        V3 {
            x: 1819,
            y: 0,
            z: 0
        }
    );
    Ok(())
}

#[test]
fn a_small_angle_opens_all(rt: HostRuntime) -> Result<(), Fail> {
    let mut cells = [0; PAGE_SIZE];
    let mut bodies = [0; PAGE_SIZE];
    put_tree(&mut cells);
    put_bodies(&mut bodies);
    let pages = Pages {
        cells: &cells,
        bodies: &bodies,
        shows_cells: true,
        shows_bodies: true,
    };
    let params = params(0, 1);
    let mut course = Course::start(ByAngle, along(0));
    assert_eq!(rt;
        answer(&mut course, &params, &pages),
        Step::Term(Term::Body(body(1, 0)))
    );
    let second = Step::Term(Term::Body(body(2, 1_048_577)));
    assert_eq!(rt; answer(&mut course, &params, &pages), second);
    let third = Step::Term(Term::Body(body(3, 1_048_580)));
    assert_eq!(rt; answer(&mut course, &params, &pages), third);
    assert_eq!(rt; answer(&mut course, &params, &pages), Step::Finished);
    Ok(())
}
