//! Trees with known answers.

ghost use Rattle.std.specs.Prelude.{◌^◌, ◌<◌, ◌≤◌};
ghost use Rattle.nb_model.specs.Limits.{box_side};
ghost use Rattle.nb_model.specs.Valid.{AreInRange, IsValidBody};
ghost use Rattle.nb_cache.specs.InStep.{IsInStep};

use crate::builder::{Builder, build};
use crate::tree_error::TreeError;
use nb_cache::Cache;
use nb_host::{Host, MemoryHost, PAGE_SIZE, PageName};
use nb_key::Key;
use nb_model::{At, BOX_SIDE, Body, Edge, Params, V3};
use nb_order::push_body;
use nb_record::{Cell, CellPage, Tree};
use std::alloc::Global;
use std::process::Abort;
use std::test::Fail;

const BODIES: u64 = 6;

const CELLS: u64 = 7;

/// The middle of an axis, in box units.
const HALF: u64 = 1 << 39;

const AT_REST: V3 = V3 { x: 0, y: 0, z: 0 };

fn params(grav: u64, leaf: u8) -> Params
    requires grav { grav < 2 ^ 60 }
    requires some { 1 ≤ leaf }
    requires leaf { leaf ≤ 32 }
    ensures { AreInRange result }
{
    Params {
        grav,
        theta_num: 1,
        theta_den: 2,
        soft: 1,
        leaf: u64::from(leaf),
        every: 100,
        edge: Edge::Open,
    }
}

/// A body at rest at (x, y, y).
fn body(id: u64, mass: u32, x: u64, y: u64) -> Body
    requires mass { 1 ≤ mass }
    requires x { x < box_side }
    requires y { y < box_side }
    ensures { IsValidBody result }
{
    Body {
        id,
        mass,
        out: false,
        at: At { x, y, z: y },
        v: AT_REST,
    }
}

/// Adds bodies with these masses and positions to an empty file. Their ids rise from 1.
fn push_rows<H: Host>(
    host: &mut H,
    cache: &mut Cache,
    file: u64,
    rows: &[(u32, u64, u64)],
) -> Result<(), Fail>
    requires least { 3 ≤ file }
    requires greatest { file ≤ 7 }
    requires in_step { IsInStep H.meaning cache.old host.old }
    ensures { IsInStep H.meaning cache.new host.new }
{
    let mut index = 0;
    for &(mass, x, y) in rows {
        if mass == 0 || x >= BOX_SIDE || y >= BOX_SIDE || index >= 4096 {
            return Err(Fail::new("a few unescaped bodies"));
        }
        let added = body(index + 1, mass, x, y);
        push_body(host, cache, file, index, &added, &AT_REST)?;
        index += 1;
    }
    Ok(())
}

/// What a build of the tree of such bodies answers, and the cell with a key on the first page.
fn built(
    alloc: Global,
    rows: &[(u32, u64, u64)],
    grav: u64,
    leaf: u8,
    key: u64,
) -> Result<(Result<Tree, TreeError>, Option<Cell>), Fail>
    requires grav { grav < 2 ^ 60 }
    requires some { 1 ≤ leaf }
    requires leaf { leaf ≤ 32 }
{
    let mut host = MemoryHost::new(alloc);
    let mut cache = Cache::new(alloc, 4)?;
    push_rows(&mut host, &mut cache, BODIES, rows)?;
    let count = rows.len() as u64;
    if count > 4096 {
        return Err(Fail::new("a few bodies"));
    }
    let mut builder = Builder::new(alloc);
    let params = params(grav, leaf);
    let answer = build(
        &mut host,
        &mut cache,
        &mut builder,
        &params,
        BODIES,
        CELLS,
        count,
    );
    if cache.flush(&mut host).is_err() {
        return Err(Fail::new("the cells on the host"));
    }
    Ok((answer, cell_on(host.bytes(CELLS), 0, key)))
}

/// The cell with this key on a page of a file.
fn cell_on(file: &[u8], page: usize, key: u64) -> Option<Cell>
    requires { page < 64 }
{
    let at = page * PAGE_SIZE;
    if file.len() < at + PAGE_SIZE {
        return None;
    }
    let page = CellPage::check(&file[at..at + PAGE_SIZE], page as u64).ok()?;
    for i in 0..page.count() {
        let view = page.cell(i)?;
        if view.key().number() == key {
            return Some(Cell {
                key: view.key(),
                mass: view.mass(),
                centre: view.centre(),
                first: view.first(),
                count: view.count(),
                kids: view.kids(),
            });
        }
    }
    None
}

/// Three bodies of mass 1: one at the corner of the box, and two that differ in the lowest bits alone.
const CORNER: [(u32, u64, u64); 3] = [(1, 0, 0), (1, 1048577, 0), (1, 1048580, 0)];

#[test]
fn the_cells_of_few_bodies(rt: HostRuntime) -> Result<(), Fail> {
    let alloc = rt.alloc();
    let (answer, cell) = built(alloc, &CORNER, 1000000000, 1, 1)?;
    let tree = answer?;
    assert_eq!(rt; (tree.bodies, tree.cells), (BODIES, CELLS));
    assert_eq!(rt; (tree.nodes, tree.count, tree.mass), (23, 3, 3));
    assert_eq!(rt; (tree.bits, tree.pages), (0, 1));
    let root = cell.ok_or("a root")?;
    assert_eq!(rt;
        (root.mass, root.count, root.first, root.kids),
        (3, 3, 0, 1)
    );
    assert_eq!(rt;
        root.centre,
        At {
            x: 699052,
            y: 0,
            z: 0
        }
    );
    let (answer, _) = built(alloc, &[], 1000000000, 1, 1)?;
    let tree = answer?;
    assert_eq!(rt; (tree.nodes, tree.count, tree.mass), (0, 0, 0));
    assert_eq!(rt; (tree.bits, tree.pages), (0, 1));
    Ok(())
}

#[test]
fn bodies_at_one_position(rt: HostRuntime) -> Result<(), Fail> {
    let alloc = rt.alloc();
    let rows = [(5, HALF, HALF), (5, HALF, HALF)];
    let (answer, cell) = built(alloc, &rows, 1000000000, 8, 1)?;
    assert_eq!(rt; answer?.nodes, 1);
    let root = cell.ok_or("a root")?;
    assert_eq!(rt; (root.mass, root.count, root.kids), (10, 2, 0));
    let (answer, cell) = built(alloc, &rows, 1000000000, 1, 15 << 60)?;
    assert_eq!(rt; answer?.nodes, 22);
    // Octant 7 first, and then octant 0 down to the deepest level.
    let deepest = cell.ok_or("a deepest cell")?;
    assert_eq!(rt;
        (deepest.key.level(), deepest.count, deepest.kids),
        (21, 2, 0)
    );
    Ok(())
}

#[test]
fn a_centre_is_rounded_down(rt: HostRuntime) -> Result<(), Fail> {
    let (answer, cell) = built(rt.alloc(), &[(1, 0, 0), (2, 1, 0)], 1000000000, 8, 1)?;
    assert_eq!(rt; answer?.mass, 3);
    let root = cell.ok_or("a root")?;
    assert_eq!(rt; root.centre.x, 0);
    Ok(())
}

#[test]
fn bodies_that_have_no_tree(rt: HostRuntime) -> Result<(), Fail> {
    let alloc = rt.alloc();
    let damaged = Err(TreeError::Damaged(PageName {
        file: BODIES,
        page: 0,
    }));
    let exchanged = [(1, 1048577, 0), (1, 0, 0), (1, 1048580, 0)];
    let (answer, _) = built(alloc, &exchanged, 1000000000, 1, 1)?;
    assert_eq!(rt; answer, damaged, "the second body comes before the first");
    let rows = [(1 << 31, 0, 0), (1 << 31, 0, 0)];
    let (answer, _) = built(alloc, &rows, 1 << 28, 8, 1)?;
    assert_eq!(rt; answer, damaged, "2^28 times 2^32 is 2^60");
    let (answer, _) = built(alloc, &rows, (1 << 28) - 1, 8, 1)?;
    assert_eq!(rt; answer?.mass, 1 << 32);
    Ok(())
}
