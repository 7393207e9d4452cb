//! The tree of 2000 generated bodies, each of its cells against the definition over the list of bodies.

ghost use Rattle.std.specs.Prelude.{◌<◌, ◌≤◌, IfOk};
ghost use Rattle.nb_model.specs.Limits.{box_side};
ghost use Rattle.nb_model.specs.Valid.{AreInRange, IsValidBody};
ghost use Rattle.nb_cache.specs.InStep.{IsInStep};

use crate::builder::{Builder, build};
use nb_cache::Cache;
use nb_host::{Host, MemoryHost, PAGE_SIZE};
use nb_key::Key;
use nb_model::{At, Body, Edge, Params, V3};
use nb_order::{ByKey, Sorter, push_body, reorder};
use nb_record::{CellPage, CellView};
use std::alloc::Global;
use std::process::Abort;
use std::test::Fail;

const UNSORTED: u64 = 5;

const BODIES: u64 = 6;

const CELLS: u64 = 7;

const COUNT: u64 = 2000;

/// The next word of SplitMix64 (Steele, Lea and Flood 2014).
fn next_word(state: &mut u64) -> u64 {
    *state = state.wrapping_add(0x9e37_79b9_7f4a_7c15);
    let z = *state;
    let z = (z ^ (z >> 30)).wrapping_mul(0xbf58_476d_1ce4_e5b9);
    let z = (z ^ (z >> 27)).wrapping_mul(0x94d0_49bb_1331_11eb);
    z ^ (z >> 31)
}

/// A coordinate near the middle of an axis.
fn coordinate(word: u64) -> u64
    ensures { result < box_side }
{
    (1 << 39) - (1 << 25) + (word >> 38)
}

/// Seven words make a body: its mass, its position, and its velocity, of which no cell tells: it is left out.
fn next_body(id: u64, state: &mut u64) -> Body
    ensures { IsValidBody result }
{
    let mass = 1 + (next_word(state) % 1000) as u32;
    let x = coordinate(next_word(state));
    let y = coordinate(next_word(state));
    let z = coordinate(next_word(state));
    let at = At { x, y, z };
    for _ in 0..3 {
        let _ = next_word(state);
    }
    let v = V3 { x: 0, y: 0, z: 0 };
    Body {
        id,
        mass,
        out: false,
        at,
        v,
    }
}

/// The generated bodies, by id.
fn generated(alloc: Global) -> Result<Vec<Body>, Fail> {
    let mut bodies = Vec::new(alloc);
    let mut state = 7;
    for index in 0..COUNT {
        bodies.push(next_body(index + 1, &mut state))?;
    }
    Ok(bodies)
}

/// Writes them to a file.
fn push_bodies<H: Host>(host: &mut H, cache: &mut Cache) -> Result<(), Fail>
    requires in_step { IsInStep H.meaning cache.old host.old }
    ensures { IsInStep H.meaning cache.new host.new }
{
    let mut state = 7;
    for index in 0..COUNT {
        let body = next_body(index + 1, &mut state);
        let kick = V3 { x: 0, y: 0, z: 0 };
        push_body(host, cache, UNSORTED, index, &body, &kick)?;
    }
    Ok(())
}

/// What the definition says of the cell with a key.
#[derive(Clone, Copy, PartialEq, Eq, Debug)]
struct Plain {
    mass: u128,
    x: u128,
    y: u128,
    z: u128,
    first: u64,
    count: u64,
    kids: u8,
}

/// The sums of the bodies of a cell, as far as they are gone through.
#[derive(Drop)]
struct Sums {
    count: u64,
    first: u64,
    mass: u128,
    x: u128,
    y: u128,
    z: u128,
    kids: u8,
}

/// One body more.
fn add(sums: &mut Sums, body: &Body, key: Key, below: u32)
    requires { below < 64 }
{
    if body.at.x >= 1 << 40 || body.at.y >= 1 << 40 || body.at.z >= 1 << 40 {
        return;
    }
    let number = Key::of(body.at.x, body.at.y, body.at.z).number();
    let cell = number >> below;
    if cell < key.number() {
        sums.first = sums.first.wrapping_add(1);
    }
    if cell == key.number() {
        let mass = u128::from(body.mass);
        sums.count = sums.count.wrapping_add(1);
        sums.mass = sums.mass.wrapping_add(mass);
        sums.x = sums
            .x
            .wrapping_add(mass.wrapping_mul(u128::from(body.at.x)));
        sums.y = sums
            .y
            .wrapping_add(mass.wrapping_mul(u128::from(body.at.y)));
        sums.z = sums
            .z
            .wrapping_add(mass.wrapping_mul(u128::from(body.at.z)));
        if below >= 3 {
            sums.kids |= 1 << ((number >> (below - 3)) % 8);
        }
    }
}

/// The cell of these bodies with a key; None where it has none.
fn cell_of(bodies: &[Body], key: Key, leaf: u64) -> Option<Plain> {
    let below = 3 * (21 - key.level());
    let mut sums = Sums {
        count: 0,
        first: 0,
        mass: 0,
        x: 0,
        y: 0,
        z: 0,
        kids: 0,
    };
    for body in bodies {
        add(&mut sums, body, key, below);
    }
    if sums.mass == 0 {
        return None;
    }
    let kids = if sums.count <= leaf { 0 } else { sums.kids };
    Some(Plain {
        mass: sums.mass,
        x: sums.x / sums.mass,
        y: sums.y / sums.mass,
        z: sums.z / sums.mass,
        first: sums.first,
        count: sums.count,
        kids,
    })
}

/// Whether a record is what the definition says of its key, under a parent that isn't a leaf.
fn is_plain(view: &CellView<'_>, bodies: &[Body], leaf: u64) -> bool {
    let key = view.key();
    let centre = view.centre();
    let cell = Plain {
        mass: u128::from(view.mass()),
        x: u128::from(centre.x),
        y: u128::from(centre.y),
        z: u128::from(centre.z),
        first: view.first(),
        count: view.count(),
        kids: view.kids(),
    };
    let under = match key.parent() {
        None => true,
        Some(parent) => match cell_of(bodies, parent, leaf) {
            None => false,
            Some(parent) => parent.count > leaf,
        },
    };
    under && cell_of(bodies, key, leaf) == Some(cell)
}

/// How many cells a page has and how many kids they have, if each is what the definition says.
fn count_on(page: &[u8], number: u64, bodies: &[Body], leaf: u64) -> Option<(u64, u64)> {
    if page.len() != PAGE_SIZE {
        return None;
    }
    let cells = CellPage::check(page, number).ok()?;
    let mut kids: u64 = 0;
    for i in 0..cells.count() {
        let view = cells.cell(i)?;
        if !is_plain(&view, bodies, leaf) {
            return None;
        }
        kids = kids.wrapping_add(u64::from(view.kids().count_ones()));
    }
    Some((cells.count(), kids))
}

/// The number of cells in the tree of the generated bodies, if each is what the definition says, and if each
/// kid of a cell is there: there is one cell that is no kid.
fn cells_of_generated(rt: &HostRuntime, leaf: u64) -> Result<u64, Fail>
    requires some { 1 ≤ leaf }
    requires leaf { leaf ≤ 32 }
{
    let alloc = rt.alloc();
    let mut host = MemoryHost::new(alloc);
    let mut cache = Cache::new(alloc, 16)?;
    push_bodies(&mut host, &mut cache)?;
    let mut sorter = Sorter::new(alloc);
    reorder(
        &mut host,
        &mut cache,
        &mut sorter,
        &ByKey,
        UNSORTED,
        BODIES,
        COUNT,
    )?;
    let params = Params {
        grav: 1,
        theta_num: 1,
        theta_den: 2,
        soft: 1,
        leaf,
        every: 1,
        edge: Edge::Open,
    };
    let mut builder = Builder::new(alloc);
    let tree = build(
        &mut host,
        &mut cache,
        &mut builder,
        &params,
        BODIES,
        CELLS,
        COUNT,
    )?;
    if cache.flush(&mut host).is_err() {
        return Err(Fail::new("the cells on the host"));
    }
    let bodies = generated(alloc)?;
    let mut cells: u64 = 0;
    let mut kids: u64 = 0;
    let mut number: u64 = 0;
    for page in host.bytes(CELLS).chunks(PAGE_SIZE) {
        let counts = count_on(page, number, &bodies, leaf);
        let (some, led_to) = counts.ok_or("cells as they are defined")?;
        cells = cells.wrapping_add(some);
        kids = kids.wrapping_add(led_to);
        number = number.wrapping_add(1);
    }
    if cells != tree.nodes || cells != kids.wrapping_add(1) || number != tree.pages {
        return Err(Fail::new("each kid once"));
    }
    Ok(cells)
}

#[test]
fn cells_of_generated_bodies(rt: HostRuntime) -> Result<(), Fail> {
    let few = cells_of_generated(&rt, 8)?;
    let many = cells_of_generated(&rt, 1)?;
    assert!(rt; 1 < few && few < many);
    Ok(())
}
