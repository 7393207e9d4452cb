//! Walks that sum, and pools of them, over small trees with known answers.

ghost use Rattle.nb_host.specs.Page.{page_of};
ghost use Rattle.std.specs.Prelude.{◌*◌, ◌+◌, ◌/◌, ◌%◌, ◌^◌, ◌==◌, ◌&&◌, nat_lt, if◌then◌else◌, Some, None, length, ◌≡◌, ◌≤◌, ◌<◌};
ghost use Rattle.nb_model.specs.Valid.{AreInRange, IsInBox};
ghost use Rattle.nb_walk.specs.Shown.{IsWalkable};
ghost use Rattle.nb_walk.specs.Walk.{IsSumInRange};
ghost use Rattle.nb_walk.specs.Pool.{AreSumsInRange};

use super::*;
use crate::{Pool, Visit, Walk};
use nb_model::HALF_BOX;

/// The first answer of a walk that isn't Moved, within 64 visits.
fn last_visit(walk: &mut Walk, params: &Params, tree: &Tree, lender: &Pages<'_>) -> Visit
    requires tree { IsWalkable params.now tree.now }
    requires range { IsSumInRange params.now walk.old }
    ensures range { IsSumInRange params.now walk.new }
{
    for _ in 0..64 {
        let visit = walk.visit(params, tree, lender);
        if visit != Visit::Moved {
            return visit;
        }
    }
    Visit::Moved
}

/// The sum of a walk from 0, where it is finished once both pages are shown.
fn sum_of_walk(
    cells: &[u8; PAGE_SIZE],
    bodies: &[u8; PAGE_SIZE],
    theta_num: u64,
    leaf: u64,
) -> Option<V3>
    requires theta { theta_num ≤ 1 }
    requires some { 1 ≤ leaf }
    requires leaf { leaf ≤ 8 }
{
    let pages = Pages {
        cells,
        bodies,
        shows_cells: true,
        shows_bodies: true,
    };
    let params = params(theta_num, leaf);
    let mut walk = Walk::start(along(0));
    if last_visit(&mut walk, &params, &TREE, &pages) != Visit::Finished {
        return None;
    }
    Some(walk.sum())
}

/// A kick along the first axis.
fn kick(x: i64) -> V3 {
    V3 { x, y: 0, z: 0 }
}

#[test]
fn walks_sum_the_pulls(rt: HostRuntime) {
    let mut cells = [0; PAGE_SIZE];
    let mut bodies = [0; PAGE_SIZE];
    put_tree(&mut cells);
    put_bodies(&mut bodies);
    let mut leaf = [0; PAGE_SIZE];
    begin_cell_page(&mut leaf, 0);
    put_cell(&mut leaf, 1, 3, 699_052, 0, 0);
    assert_eq!(rt; sum_of_walk(&cells, &bodies, 1, 1), Some(kick(1819)));
    assert_eq!(rt; sum_of_walk(&cells, &bodies, 0, 1), Some(kick(1818)));
    assert_eq!(rt; sum_of_walk(&leaf, &bodies, 1, 8), Some(kick(1818)));
}

#[test]
fn a_walk_is_unchanged_while_it_waits(rt: HostRuntime) {
    let mut cells = [0; PAGE_SIZE];
    let mut bodies = [0; PAGE_SIZE];
    put_tree(&mut cells);
    put_bodies(&mut bodies);
    let mut pages = Pages {
        cells: &cells,
        bodies: &bodies,
        shows_cells: false,
        shows_bodies: false,
    };
    let params = params(1, 1);
    let mut walk = Walk::start(along(0));
    assert_eq!(rt;
        last_visit(&mut walk, &params, &TREE, &pages),
        Visit::Wants(CELLS)
    );
    assert_eq!(rt;
        last_visit(&mut walk, &params, &TREE, &pages),
        Visit::Wants(CELLS)
    );
    pages.shows_cells = true;
    assert_eq!(rt;
        last_visit(&mut walk, &params, &TREE, &pages),
        Visit::Wants(BODIES)
    );
    assert_eq!(rt; walk.sum(), kick(0));
    pages.shows_bodies = true;
    assert_eq!(rt;
        last_visit(&mut walk, &params, &TREE, &pages),
        Visit::Finished
    );
    assert_eq!(rt; walk.sum(), kick(1819));
}

#[test]
fn more_mass_than_the_tree_has_is_damage(rt: HostRuntime) {
    let mut cells = [0; PAGE_SIZE];
    let mut bodies = [0; PAGE_SIZE];
    put_tree(&mut cells);
    put_bodies(&mut bodies);
    let pages = Pages {
        cells: &cells,
        bodies: &bodies,
        shows_cells: true,
        shows_bodies: true,
    };
    let params = params(1, 1);
    let tree = Tree { mass: 2, ..TREE };
    let mut walk = Walk::start(along(0));
    assert_eq!(rt;
        last_visit(&mut walk, &params, &tree, &pages),
        Visit::Damaged(CELLS)
    );
    assert_eq!(rt; walk.sum(), kick(0));
}

#[test]
fn a_pool_wants_its_pages(rt: HostRuntime) -> Result<(), Fail> {
    let mut cells = [0; PAGE_SIZE];
    let mut bodies = [0; PAGE_SIZE];
    put_tree(&mut cells);
    put_bodies(&mut bodies);
    let mut pages = Pages {
        cells: &cells,
        bodies: &bodies,
        shows_cells: false,
        shows_bodies: false,
    };
    let params = params(1, 1);
    let mut pool = Pool::new(rt.alloc(), 1)?;
    begin(&mut pool, &params, along(0));
    assert_eq!(rt; pool.advance(&params, &TREE, &pages), Ok(false));
    assert_eq!(rt; pool.wants(), [CELLS].as_slice());
    pages.shows_cells = true;
    assert_eq!(rt; pool.advance(&params, &TREE, &pages), Ok(false));
    assert_eq!(rt; pool.wants(), [BODIES].as_slice());
    pages.shows_bodies = true;
    assert_eq!(rt; pool.advance(&params, &TREE, &pages), Ok(true));
    assert!(rt; pool.wants().is_empty());
    assert_eq!(rt; pool_sum(&pool, 0), Some(kick(1819)));
    pool.clear();
    assert_eq!(rt; pool.len(), 0);
    Ok(())
}

/// Begins a walk where there is room for one more.
fn begin(pool: &mut Pool, params: &Params, target: At)
    requires target { IsInBox target }
    requires range { AreSumsInRange params.now pool.old.walks }
    ensures range { AreSumsInRange params.now pool.new.walks }
{
    if pool.len() < pool.walks() {
        pool.begin(target);
    }
}

/// The sum of walk i, where the pool has one.
fn pool_sum(pool: &Pool, i: usize) -> Option<V3> {
    if i >= pool.len() {
        return None;
    }
    Some(pool.sum(i))
}

/// How many bodies of mass 1 each octant of the box has.
const IN_OCTANT: u64 = 25;

const MANY: u64 = 8 * IN_OCTANT;

/// The tree of these bodies with 32 of them a leaf: the root, and its octants.
const OCTANTS: Tree = Tree {
    bodies: 3,
    cells: 7,
    bits: 2,
    pages: 4,
    count: MANY,
    mass: MANY,
    nodes: 9,
};

/// The four pages of its cells and the five of its bodies, each shown where a bit is set.
#[derive(Drop)]
struct Files<'a> {
    cells: &'a [u8; 4 * PAGE_SIZE],
    bodies: &'a [u8; 5 * PAGE_SIZE],
    cell_bits: u64,
    body_bits: u64,
}

impl<'a> Lender for Files<'a> {
    ghost cells = { λ p page.
        if nat_lt page 4 && (p.cell_bits / 2 ^ page % 2 == 1) then Some (page_of p.cells.now page) else None };

    ghost bodies = { λ p page.
        if nat_lt page 5 && (p.body_bits / 2 ^ page % 2 == 1) then Some (page_of p.bodies.now page) else None };

    fn cell_page(&self, page: u64) -> Option<Result<CellPage<'_>, PageError>> {
        if page < 4 && (self.cell_bits >> page) % 2 == 1 {
            let file = self.cells;
            return Some(CellPage::check(bytes_of(file, page), page));
        }
        None
    }

    fn body_page(&self, page: u64) -> Option<Result<BodyPage<'_>, PageError>> {
        if page < 5 && (self.body_bits >> page) % 2 == 1 {
            let file = self.bodies;
            return Some(BodyPage::check(bytes_of(file, page), page));
        }
        None
    }
}

/// The bytes of a page of a file.
fn bytes_of(file: &[u8], page: u64) -> &[u8]
    requires few { page < 5 }
    requires whole { page * PAGE_SIZE + PAGE_SIZE ≤ length file.now }
    ensures bytes { result.now ≡ page_of file.now page }
    ensures size { length result.now ≡ PAGE_SIZE }
{
    let from = page as usize * PAGE_SIZE;
    &file[from..from + PAGE_SIZE]
}

/// The position of body i, close to the middle of the box.
fn position(i: u64) -> At
    requires { i < MANY }
    ensures { IsInBox result }
{
    let octant = i / IN_OCTANT;
    At {
        x: HALF_BOX * (octant / 4)
            + (HALF_BOX - 50_000) * (1 - octant / 4)
            + 1000 * (i % IN_OCTANT),
        y: HALF_BOX - 1 + octant / 2 % 2,
        z: HALF_BOX - 1 + octant % 2,
    }
}

/// Writes a page of the cells: those whose keys have this remainder.
fn put_cells(into: &mut [u8], page: u64)
    requires size { length into.old ≡ PAGE_SIZE }
    requires page { page < 4 }
{
    begin_cell_page(into, page);
    for number in 0..16u64 {
        if number % 4 != page || (number != 1 && number < 8) {
            continue;
        }
        let Some(key) = Key::from_number(number) else {
            return;
        };
        let root = number == 1;
        let cell = Cell {
            key,
            mass: if root { MANY } else { IN_OCTANT },
            centre: along(HALF_BOX),
            first: if root { 0 } else { IN_OCTANT * (number % 8) },
            count: if root { MANY } else { IN_OCTANT },
            kids: if root { 255 } else { 0 },
        };
        match CellPage::check(into, page) {
            Ok(checked) => {
                if checked.count() >= CELLS_PER_PAGE {
                    return;
                }
            }
            Err(_) => return,
        }
        add_cell(into, &cell);
    }
}

/// Writes a page of the bodies.
fn put_page(into: &mut [u8], page: u64)
    requires size { length into.old ≡ PAGE_SIZE }
    requires page { page < 5 }
{
    begin_body_page(into, page);
    for i in BODIES_PER_PAGE * page..MANY.min(BODIES_PER_PAGE * page + BODIES_PER_PAGE) {
        let at = position(i);
        match BodyPage::check(into, page) {
            Ok(checked) => {
                if checked.count() >= BODIES_PER_PAGE {
                    return;
                }
            }
            Err(_) => return,
        }
        add_body(into, &Body { at, ..body(i, 0) }, &V3 { x: 0, y: 0, z: 0 });
    }
}

/// What the bodies give to a body at `from`, one by one.
fn direct(params: &Params, from: &At) -> V3
    requires params { AreInRange params.now }
    requires gm { params.now.grav ≤ 1000200000000000 }
    requires from { IsInBox from.now }
{
    let mut sum = kick(0);
    for i in 0..MANY {
        let more = pull(params, from, 1, &position(i));
        sum = V3 {
            x: sum.x.wrapping_add(more.x),
            y: sum.y.wrapping_add(more.y),
            z: sum.z.wrapping_add(more.z),
        };
    }
    sum
}

/// Has a pool advance with pages that are shown or not by the bits of random words, until all walks are
/// finished.
fn finish(
    pool: &mut Pool,
    params: &Params,
    cells: &[u8; 4 * PAGE_SIZE],
    bodies: &[u8; 5 * PAGE_SIZE],
) -> bool
    requires tree { IsWalkable params.now OCTANTS }
    requires range { AreSumsInRange params.now pool.old.walks }
{
    let mut word = 1u64;
    for _ in 0..1000 {
        word = word
            .wrapping_mul(6_364_136_223_846_793_005)
            .wrapping_add(1_442_695_040_888_963_407);
        let files = Files {
            cells,
            bodies,
            cell_bits: word >> 60,
            body_bits: word >> 55,
        };
        if pool.advance(params, &OCTANTS, &files) == Ok(true) {
            return true;
        }
    }
    false
}

/// Begins a walk for each body.
fn begin_many(pool: &mut Pool, params: &Params)
    requires range { AreSumsInRange params.now pool.old.walks }
    ensures range { AreSumsInRange params.now pool.new.walks }
{
    for i in 0..MANY {
        begin(pool, params, position(i));
    }
}

#[test]
fn pages_are_shown_and_withdrawn(rt: HostRuntime) -> Result<(), Fail> {
    let mut cells = [0; 4 * PAGE_SIZE];
    let mut bodies = [0; 5 * PAGE_SIZE];
    for page in 0..4usize {
        put_cells(
            &mut cells[PAGE_SIZE * page..PAGE_SIZE * page + PAGE_SIZE],
            page as u64,
        );
    }
    for page in 0..5usize {
        put_page(
            &mut bodies[PAGE_SIZE * page..PAGE_SIZE * page + PAGE_SIZE],
            page as u64,
        );
    }
    let params = params(0, 32);
    for room in [0, 8, 12, 24, 4096] {
        let mut pool = Pool::with_room(rt.alloc(), 256, room)?;
        begin_many(&mut pool, &params);
        assert_eq!(rt; finish(&mut pool, &params, &cells, &bodies), true);
        for i in 0..MANY {
            assert_eq!(rt;
                pool_sum(&pool, i as usize),
                Some(direct(&params, &position(i)))
            );
        }
    }
    Ok(())
}
