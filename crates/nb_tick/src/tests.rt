//! Ticks with known answers.

ghost use Rattle.std.specs.Prelude.{◌≡◌, ◌^◌, ◌<◌, ◌≤◌, [], OnOk};
ghost use Rattle.nb_model.specs.Valid.{AreInRange};
ghost use Rattle.nb_cache.specs.InStep.{IsInStep};

use crate::leapfrog::tick;
use crate::slot::Slot;
use nb_cache::Cache;
use nb_host::{Host, MemoryHost};
use nb_model::{At, Body, Edge, HALF_BOX, Params, V3, Way};
use nb_order::{KickedBody, Sorter, kicked_at, push_body};
use nb_tree::Builder;
use nb_walk::Pool;
use std::alloc::Global;
use std::test::Fail;

/// The middle of an axis, in box units.
const MIDDLE: u64 = HALF_BOX;

const NO_KICK: V3 = V3 { x: 0, y: 0, z: 0 };

/// How many bodies there are in the crowd, which has twelve pages.
const CROWD: u64 = 512;

fn params(edge: Edge) -> Params
    ensures { AreInRange result }
{
    Params {
        grav: 1_000_000_000,
        theta_num: 1,
        theta_den: 2,
        soft: 1,
        leaf: 8,
        every: 100,
        edge,
    }
}

/// A vector along the first axis.
fn along(x: i64) -> V3 {
    V3 { x, y: 0, z: 0 }
}

/// A body of the pair of masses 1 and 1000, with its half kick.
fn one_of_pair(id: u64, mass: u32, x: u64, v: i64, kick: i64) -> KickedBody {
    KickedBody {
        body: Body {
            id,
            mass,
            out: false,
            at: At {
                x,
                y: MIDDLE,
                z: MIDDLE,
            },
            v: along(v),
        },
        kick: along(kick),
    }
}

/// Adds a body to the slot of an even number of ticks.
fn put<H: Host>(host: &mut H, cache: &mut Cache, index: u64, body: &Body) -> Result<(), Fail>
    requires index { index < 2 ^ 24 }
    requires in_step { IsInStep H.meaning cache.old host.old }
    ensures { IsInStep H.meaning cache.new host.new }
{
    if !body.is_valid() {
        return Err(Fail::new("a valid body"));
    }
    push_body(host, cache, 3, index, body, &NO_KICK)?;
    Ok(())
}

/// The first two bodies of a slot, with their half kicks.
fn pair_in<H: Host>(host: &mut H, cache: &mut Cache, slot: Slot) -> Result<[KickedBody; 2], Fail>
    requires in_step { IsInStep H.meaning cache.old host.old }
    ensures { IsInStep H.meaning cache.new host.new }
{
    let first = kicked_at(host, cache, slot.file(), 0)?;
    let second = kicked_at(host, cache, slot.file(), 1)?;
    Ok([first, second])
}

/// A tick with so many walks at a time.
fn tick_once<H: Host>(
    alloc: Global,
    host: &mut H,
    cache: &mut Cache,
    params: &Params,
    from: Slot,
    count: u64,
    way: Way,
    known: bool,
    walks: usize,
) -> Result<u64, Fail>
    requires params { AreInRange params.now }
    requires count { count ≤ 512 }
    requires some_walks { 1 ≤ walks }
    requires few_walks { walks ≤ 1024 }
    requires unwritten { cache.old.unwritten ≡ [] }
    requires in_step { IsInStep H.meaning cache.old host.old }
    ensures unwritten { OnOk result (cache.new.unwritten ≡ []) }
    ensures in_step { IsInStep H.meaning cache.new host.new }
{
    let mut pool = Pool::new(alloc, walks)?;
    let mut sorter = Sorter::new(alloc);
    let mut builder = Builder::new(alloc);
    Ok(tick(
        host,
        cache,
        &mut pool,
        &mut sorter,
        &mut builder,
        params,
        from,
        count,
        way,
        known,
    )?)
}

/// The pair at rest with these places on the first axis, a tick on and back again: what each tick answers, and
/// what its slot holds then.
fn there_and_back(
    alloc: Global,
    pages: usize,
    walks: usize,
    known: bool,
    edge: Edge,
    places: [u64; 2],
) -> Result<(u64, [KickedBody; 2], u64, [KickedBody; 2]), Fail>
    requires least { 4 ≤ pages }
    requires most { pages ≤ 2 ^ 18 }
    requires some_walks { 1 ≤ walks }
    requires few_walks { walks ≤ 1024 }
{
    let mut host = MemoryHost::new(alloc);
    let mut cache = Cache::new(alloc, pages)?;
    let params = params(edge);
    let [light, heavy] = places;
    put(
        &mut host,
        &mut cache,
        0,
        &one_of_pair(1, 1, light, 0, 0).body,
    )?;
    put(
        &mut host,
        &mut cache,
        1,
        &one_of_pair(2, 1000, heavy, 0, 0).body,
    )?;
    cache.flush(&mut host)?;
    let on = tick_once(
        alloc,
        &mut host,
        &mut cache,
        &params,
        Slot::Even,
        2,
        Way::Forward,
        false,
        walks,
    )?;
    let odd = pair_in(&mut host, &mut cache, Slot::Odd)?;
    cache.flush(&mut host)?;
    let back = tick_once(
        alloc,
        &mut host,
        &mut cache,
        &params,
        Slot::Odd,
        2,
        Way::Back,
        known,
        walks,
    )?;
    let even = pair_in(&mut host, &mut cache, Slot::Even)?;
    Ok((on, odd, back, even))
}

/// A body with nothing that pulls it.
fn alone(at: At, v: i64, out: bool) -> Body {
    Body {
        id: 7,
        mass: 3,
        out,
        at,
        v: along(v),
    }
}

/// What a tick answers for one body, and the body then.
fn alone_after(
    alloc: Global,
    pages: usize,
    walks: usize,
    edge: Edge,
    body: &Body,
) -> Result<(u64, Body), Fail>
    requires least { 4 ≤ pages }
    requires most { pages ≤ 2 ^ 18 }
    requires some_walks { 1 ≤ walks }
    requires few_walks { walks ≤ 1024 }
{
    let mut host = MemoryHost::new(alloc);
    let mut cache = Cache::new(alloc, pages)?;
    let params = params(edge);
    put(&mut host, &mut cache, 0, body)?;
    cache.flush(&mut host)?;
    let out = tick_once(
        alloc,
        &mut host,
        &mut cache,
        &params,
        Slot::Even,
        1,
        Way::Forward,
        false,
        walks,
    )?;
    let found = kicked_at(&mut host, &mut cache, Slot::Odd.file(), 0)?;
    Ok((out, found.body))
}

/// Adds bodies at one place, at rest, to the slot of an even number of ticks. None pulls another, so the half
/// kicks there are theirs.
fn put_crowd<H: Host>(host: &mut H, cache: &mut Cache) -> Result<(), Fail>
    requires { IsInStep H.meaning cache.old host.old }
    ensures { IsInStep H.meaning cache.new host.new }
{
    for index in 0..CROWD {
        let body = Body {
            id: index,
            mass: 1,
            out: false,
            at: At { x: 0, y: 0, z: 0 },
            v: NO_KICK,
        };
        put(host, cache, index, &body)?;
    }
    Ok(())
}

/// A tick of the crowd with four pages and 64 walks: the host then, and how often it was read in the tick.
fn crowd_ticked(alloc: Global, known: bool) -> Result<(MemoryHost, u64), Fail> {
    let mut host = MemoryHost::new(alloc);
    let mut cache = Cache::new(alloc, 4)?;
    let params = params(Edge::Open);
    put_crowd(&mut host, &mut cache)?;
    cache.flush(&mut host)?;
    let before = host.reads();
    tick_once(
        alloc,
        &mut host,
        &mut cache,
        &params,
        Slot::Even,
        CROWD,
        Way::Forward,
        known,
        64,
    )?;
    let reads = host.reads().wrapping_sub(before);
    Ok((host, reads))
}

#[test]
fn a_tick_with_known_kicks_reads_less(rt: HostRuntime) -> Result<(), Fail> {
    let (found, many) = crowd_ticked(rt.alloc(), false)?;
    let (known, few) = crowd_ticked(rt.alloc(), true)?;
    assert!(rt; few < many);
    let slot = Slot::Odd.file();
    assert_eq!(rt; known.bytes(slot).len(), 12 * 4096);
    assert_eq!(rt; known.bytes(slot), found.bytes(slot));
    Ok(())
}

#[test]
fn a_tick_there_and_back(rt: HostRuntime) -> Result<(), Fail> {
    let places = [MIDDLE, MIDDLE + 1000];
    let on = [
        one_of_pair(2, 1000, 549_755_813_889, -999, 0),
        one_of_pair(1, 1, 549_756_813_887, 999_998, -1),
    ];
    let back = [
        one_of_pair(1, 1, MIDDLE, 0, 999_999),
        one_of_pair(2, 1000, MIDDLE + 1000, 0, -999),
    ];
    let want = (0, on, 0, back);
    assert_eq!(rt;
        there_and_back(rt.alloc(), 4, 1, true, Edge::Open, places)?,
        want
    );
    assert_eq!(rt;
        there_and_back(rt.alloc(), 256, 64, false, Edge::Open, places)?,
        want
    );
    Ok(())
}

#[test]
fn a_pair_meets_across_the_border(rt: HostRuntime) -> Result<(), Fail> {
    let places = [0, 1_099_511_626_776];
    let on = [
        one_of_pair(1, 1, 1_099_510_627_777, -999_998, 1),
        one_of_pair(2, 1000, 1_099_511_627_775, 999, 0),
    ];
    let back = [
        one_of_pair(1, 1, 0, 0, -999_999),
        one_of_pair(2, 1000, 1_099_511_626_776, 0, 999),
    ];
    let want = (0, on, 0, back);
    assert_eq!(rt;
        there_and_back(rt.alloc(), 4, 1, true, Edge::Wrap, places)?,
        want
    );
    assert_eq!(rt;
        there_and_back(rt.alloc(), 256, 64, false, Edge::Wrap, places)?,
        want
    );
    Ok(())
}

#[test]
fn a_body_crosses_the_border(rt: HostRuntime) -> Result<(), Fail> {
    let side = 1_099_511_627_776;
    let corner = At {
        x: 1_099_511_627_775,
        y: 0,
        z: 0,
    };
    let origin = At { x: 0, y: 0, z: 0 };
    let fives = At { x: 5, y: 5, z: 5 };
    let below = At { x: 4, y: 5, z: 5 };
    let above = At { x: 6, y: 5, z: 5 };
    let rows = [
        (Edge::Open, corner, 1, 1, corner),
        (Edge::Wrap, corner, 1, 0, origin),
        (Edge::Wrap, fives, side, 1, fives),
        (Edge::Wrap, fives, side - 1, 0, below),
        (Edge::Wrap, fives, -side, 1, fives),
        (Edge::Wrap, fives, 1 - side, 0, above),
    ];
    for (edge, from, v, out, to) in rows {
        let body = alone(from, v, false);
        let want = (out, alone(to, v, out == 1));
        assert_eq!(rt;
            alone_after(rt.alloc(), 4, 1, edge, &body)?,
            want,
            "at velocity {v}"
        );
        assert_eq!(rt;
            alone_after(rt.alloc(), 256, 64, edge, &body)?,
            want,
            "at velocity {v}"
        );
    }
    Ok(())
}
