//! Half kicks of small trees with known answers.

ghost use Rattle.std.specs.Prelude.{◌≡◌, ◌≤◌, ◌<◌, ⊤, length};
ghost use Rattle.nb_model.specs.Limits.{box_side};
ghost use Rattle.nb_model.specs.Valid.{IsValidBody};
ghost use Rattle.nb_cache.specs.InStep.{IsInStep};

use crate::{ForceError, Receiver, kicks};
use nb_cache::Cache;
use nb_host::{Host, MemoryHost, PAGE_SIZE, PageName};
use nb_model::{At, Body, Edge, Params, V3};
use nb_order::push_body;
use nb_record::{Tree, begin_cell_page};
use nb_walk::Pool;
use std::alloc::Global;
use std::test::Fail;

const BODIES: u64 = 3;

const CELLS: u64 = 7;

const AT_REST: V3 = V3 { x: 0, y: 0, z: 0 };

const TREE: Tree = Tree {
    bodies: BODIES,
    cells: CELLS,
    bits: 0,
    pages: 1,
    count: 3,
    mass: 3,
    nodes: 23,
};

/// On the first axis the last kick that was handed over with each of the indexes 0 to 2, and how many kicks were.
#[derive(Clone, Copy, PartialEq, Eq, Debug)]
struct Kept {
    kicks: [i64; 3],
    count: u64,
}

impl<H: Host> Receiver<H> for Kept {
    ghost model = { record {
      has_taken = λ kept files list. ⊤;
      file = λ kept. 5;
      Setting = ⊤;
      setting = λ kept. tt;
      fits = λ kept files list. ⊤;
    } };

    fn take(
        &mut self,
        _host: &mut H,
        _cache: &mut Cache,
        index: u64,
        _body: &Body,
        kick: &V3,
    ) -> Result<(), ForceError> {
        if index < 3 {
            self.kicks[index as usize] = kick.x;
        }
        self.count = self.count.saturating_add(1);
        Ok(())
    }
}

/// The parameters with the opening angle `theta_num` / 1.
fn params(theta_num: u64) -> Params
    ensures { result ≡ record {
      grav = 1000200000000000;
      theta_num = theta_num;
      theta_den = 1;
      soft = 1;
      leaf = 1;
      every = 1;
      edge = Edge.Open;
    } }
{
    Params {
        grav: 1_000_200_000_000_000,
        theta_num,
        theta_den: 1,
        soft: 1,
        leaf: 1,
        every: 1,
        edge: Edge::Open,
    }
}

/// A body of mass 1, at rest at (x, 0, 0).
fn body(id: u64, x: u64) -> Body
    requires { x < box_side }
    ensures { IsValidBody result }
{
    Body {
        id,
        mass: 1,
        out: false,
        at: At { x, y: 0, z: 0 },
        v: AT_REST,
    }
}

/// Writes a number at an offset of a page.
fn put_word(into: &mut [u8], at: usize, number: u64)
    requires size { length into.old ≡ PAGE_SIZE }
    requires at { at ≤ 4088 }
    ensures { length into.new ≡ PAGE_SIZE }
{
    into[at..at + 8].copy_from_slice(&number.to_le_bytes());
}

/// Writes the record of a cell on a page: its key, as many bodies as its mass, its centre at (x, 0, 0), its
/// first body and its kids.
fn put_cell(into: &mut [u8], index: usize, key: u64, count: u64, x: u64, first: u64, kids: u64)
    requires size { length into.old ≡ PAGE_SIZE }
    requires index { index < 63 }
    ensures { length into.new ≡ PAGE_SIZE }
{
    let at = 32 + 64 * index;
    put_word(into, at, key);
    put_word(into, at + 8, count);
    put_word(into, at + 16, x);
    put_word(into, at + 40, first);
    put_word(into, at + 48, count);
    put_word(into, at + 56, kids);
}

/// The 23 cells of the tree of three bodies of mass 1, at 0, 1048577 and 1048580 on the first axis, with one
/// body a leaf: all three lie in one cell down to level 19.
fn put_tree(into: &mut [u8])
    requires { length into.old ≡ PAGE_SIZE }
    ensures { length into.new ≡ PAGE_SIZE }
{
    begin_cell_page(into, 0);
    put_word(into, 8, 23);
    for level in 0..20u32 {
        let kids = if level < 19 { 1 } else { 17 };
        put_cell(into, level as usize, 1 << (3 * level), 3, 699_052, 0, kids);
    }
    put_cell(into, 20, 1 << 60, 1, 0, 0, 0);
    put_cell(into, 21, (1 << 60) + 4, 2, 1_048_578, 1, 1);
    put_cell(into, 22, (1 << 63) + 32, 2, 1_048_578, 1, 0);
}

/// Adds the three bodies to an empty file.
fn push_bodies<H: Host>(host: &mut H, cache: &mut Cache) -> Result<(), Fail>
    requires { IsInStep H.meaning cache.old host.old }
    ensures { IsInStep H.meaning cache.new host.new }
{
    push_body(host, cache, BODIES, 0, &body(1, 0), &AT_REST)?;
    push_body(host, cache, BODIES, 1, &body(2, 1_048_577), &AT_REST)?;
    push_body(host, cache, BODIES, 2, &body(3, 1_048_580), &AT_REST)?;
    Ok(())
}

/// What a receiver was handed of the three bodies, with a pool of so many walks.
fn kicked(alloc: Global, theta_num: u64, walks: usize) -> Result<Kept, Fail>
    requires theta { theta_num ≤ 1 }
    requires some { 1 ≤ walks }
    requires few { walks ≤ 2 }
{
    let mut host = MemoryHost::new(alloc);
    let mut cache = Cache::new(alloc, 4)?;
    let mut pool = Pool::new(alloc, walks)?;
    push_bodies(&mut host, &mut cache)?;
    let mut cells = [0; PAGE_SIZE];
    put_tree(&mut cells);
    let name = PageName {
        file: CELLS,
        page: 0,
    };
    cache.put(&mut host, name, &cells)?;
    let mut kept = Kept {
        kicks: [0; 3],
        count: 0,
    };
    let params = params(theta_num);
    match kicks(&mut host, &mut cache, &mut pool, &params, &TREE, &mut kept) {
        Ok(()) => Ok(kept),
        Err(_) => Err(Fail::new("each body handed over")),
    }
}

// The bodies at 1048577 and 1048580 pull each other by 1000200000000000 * 3 / (10 * 3), and the one at 0 pulls
// each by 909. They pull it as one, by 1819, or one by one, by 909 each.
#[test]
fn each_body_gets_its_kick(rt: HostRuntime) -> Result<(), Fail> {
    let alloc = rt.alloc();
    let together = Kept {
        kicks: [1819, 100_019_999_999_091, -100_020_000_000_909],
        count: 3,
    };
    let one_by_one = Kept {
        kicks: [1818, 100_019_999_999_091, -100_020_000_000_909],
        count: 3,
    };
    assert_eq!(rt; kicked(alloc, 1, 1)?, together);
    assert_eq!(rt; kicked(alloc, 1, 2)?, together);
    assert_eq!(rt; kicked(alloc, 0, 1)?, one_by_one);
    assert_eq!(rt; kicked(alloc, 0, 2)?, one_by_one);
    Ok(())
}
