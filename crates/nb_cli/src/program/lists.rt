//! A table of 200 hard lists of bodies. A run leads each of them there and back by pages, keys and trees, with little
//! memory; `once` takes the definition's plain ticks over the list in memory, and knows none of these. Their snapshots
//! are to be the same, byte for byte.
//!
//! Five tables name twenty kinds, and there are ten lists of each: bodies at one place, side by side, in another octant
//! at each level, at the corners, half a box apart, one alone and none; the first ones, the last ones, every other one
//! and all out from the start; the greatest speeds, a side of the box a tick, just to the border and one further; and
//! as many as fill a page, or two, and one more.
//!
//! Beside what its kind says, each list draws its opening angle, its softening, the size of its leaves, its masses, of
//! which about half of the lists have only the least and the greatest, and its constant of gravity, as great as they
//! allow or up to 2^24 times less. Ids say nothing of places, and the last one is 2^64 - 1. Of ten lists six are led
//! forward from time 0, and four back from a later time.

use super::*;
use nb_host::MemoryHost;
use nb_model::{BOX_SIDE, GM_LIMIT, HALF_BOX, SPEED_LIMIT};
use rand_xoshiro::SplitMix64;
use rand_xoshiro::rand_core::{Rng, SeedableRng};
use std::alloc::AllocError;
use std::process::Abort;
use std::test::Fail;

const PARAMS: u64 = 0;

const INIT: u64 = 1;

const ONCE: u64 = 8;

/// The file of the snapshot after no ticks, if there were one.
const AFTER_0: u64 = 16;

/// The greatest coordinate.
const LAST: u64 = BOX_SIDE - 1;

/// The time at first, the target, and how many ticks are between them.
static LEGS: [(u64, u64, u64); 5] = [
    (0, 1, 1),
    (0, 2, 2),
    (0, 3, 3),
    (3, 1, 2),
    (u64::MAX, u64::MAX - 1, 1),
];

/// How many pages and walks.
static PACES: [(&str, &str); 2] = [("4", "1"), ("64", "7")];

static ANGLES: [&str; 8] = [
    "theta_num = 0\ntheta_den = 1",
    "theta_num = 1\ntheta_den = 32768",
    "theta_num = 32768\ntheta_den = 1",
    "theta_num = 1\ntheta_den = 2",
    "theta_num = 1\ntheta_den = 2",
    "theta_num = 3\ntheta_den = 4",
    "theta_num = 1\ntheta_den = 1",
    "theta_num = 2\ntheta_den = 1",
];

static SOFTENINGS: [&str; 8] = ["1", "1", "1", "64", "64", "4096", "65536", "1099511627775"];

static LEAVES: [&str; 4] = ["1", "1", "8", "32"];

/// A body at a corner steps out of the box, or stays.
static STEPS: [u64; 4] = [0, 1, u64::MAX, 0];

/// The greatest speeds of an unescaped body.
static GREATEST: [u64; 4] = [0, 1, SPEED_LIMIT - 1, u64::MAX - SPEED_LIMIT + 2];

/// Speeds of half a box and of a whole one, and just below.
static SIDES: [u64; 8] = [
    0,
    1,
    HALF_BOX,
    u64::MAX - HALF_BOX + 1,
    LAST,
    u64::MAX - LAST + 1,
    BOX_SIDE,
    u64::MAX - BOX_SIDE + 1,
];

/// Where the bodies of a list are, on each axis.
#[derive(Clone, Copy)]
enum Place {
    /// All at one place.
    One,
    /// At both ends.
    Ends,
    /// At one place and half a box from it, and one further.
    Halves,
    /// Around the middle, far or near.
    Middle,
    /// From the far end of the box to its first places: each in another octant at some level.
    Ladder,
    /// At two places side by side.
    Pair,
    /// On both sides of the middle, side by side.
    MiddlePair,
}

/// The velocities of the bodies of a list, on each axis.
#[derive(Clone, Copy)]
enum Speed {
    /// At rest.
    Rest,
    /// At most 2048.
    Slow,
    /// One of `STEPS`.
    Step,
    /// One of `GREATEST`.
    Greatest,
    /// One of `SIDES`.
    Side,
    /// Just so fast that it comes to the border, forward or back, and some one further.
    Border,
    /// Any. Only a body that is out has it.
    Any,
}

/// A kind of lists. There are `least` bodies, and so many more as some of the bits of `more` say. Bit i of `first`
/// says whether body i is out, and bit i of `last`, whether body i from the last one is.
struct Kind {
    name: &'static str,
    edge: &'static str,
    place: Place,
    speed: Speed,
    least: u64,
    more: u64,
    first: u64,
    last: u64,
}

/// Kinds: name, edge, places, speeds, `least`, `more`, `first`, `last`.
macro_rules! kinds {
    ($(
        $name:literal $edge:literal $place:ident $speed:ident
        $least:literal $more:literal $first:expr, $last:expr;
    )*) => {
        &[$(Kind {
            name: $name,
            edge: $edge,
            place: Place::$place,
            speed: Speed::$speed,
            least: $least,
            more: $more,
            first: $first,
            last: $last,
        }),*]
    };
}

/// Bodies that are close to one another.
const CLOSE: &[Kind] = kinds! {
    "at one place, at rest"         "open"  One         Rest        9   31  0, 0;
    "at one place"                  "wrap"  One         Slow        9   31  0, 0;
    "side by side"                  "open"  Pair        Slow        2   31  0, 0;
    "side by side in the middle"    "wrap"  MiddlePair  Rest        2   31  0, 0;
    "a ladder"                      "open"  Ladder      Rest        8   31  0, 0;
};

/// Bodies at the ends of the box.
const FAR: &[Kind] = kinds! {
    "one body"                      "open"  Ends        Border      1   0   0, 0;
    "at the corners"                "open"  Ends        Step        8   31  0, 0;
    "at the corners"                "wrap"  Ends        Step        8   31  0, 0;
    "half a box apart"              "open"  Halves      Rest        2   31  0, 0;
    "half a box apart"              "wrap"  Halves      Slow        2   31  0, 0;
};

/// Bodies of which some are out from the start, or none are there.
const OUT: &[Kind] = kinds! {
    "no body"                       "wrap"  One         Rest        0   0   0, 0;
    "the first ones out"            "open"  Middle      Slow        9   31  3, 0;
    "the last ones out"             "wrap"  Middle      Slow        9   31  0, 3;
    "every other one out"           "open"  Middle      Slow        9   31  u64::MAX / 3, 0;
    "all out"                       "open"  Middle      Slow        1   31  u64::MAX, 0;
};

/// Fast bodies.
const FAST: &[Kind] = kinds! {
    "the greatest speeds"           "open"  Middle      Greatest    9   31  0, 0;
    "speeds of a side"              "wrap"  Middle      Side        9   31  0, 0;
    "to the border"                 "open"  Middle      Border      9   31  0, 0;
};

/// So many bodies that they fill a page or two, and one more.
const FULL: &[Kind] = kinds! {
    "46 and 47 bodies"              "open"  Middle      Slow        46  1   0, 0;
    "92 and 93 bodies"              "wrap"  Middle      Slow        92  1   0, 0;
};

/// A coordinate of body `index`, of a word of its list and one of its own.
fn coordinate(place: Place, base: u64, index: u64, word: u64) -> u64 {
    let free = match place {
        Place::One => base,
        Place::Ends => 0u64.wrapping_sub(word & 1),
        Place::Halves => base
            .wrapping_add((word & 1) << 39)
            .wrapping_add(word >> 1 & 1),
        Place::Middle => {
            let reach = (1u64 << 26) >> (7 * (base % 4));
            HALF_BOX.wrapping_add(word & 0x3ff_ffff & reach.wrapping_sub(1))
        }
        Place::Ladder => (1u64 << (39 - index % 40)).wrapping_sub(word & 1),
        Place::Pair => base.wrapping_add(word & 1),
        Place::MiddlePair => HALF_BOX.wrapping_sub(word & 1),
    };
    free & LAST
}

/// A velocity on an axis, in two's complement, of the coordinate and a word.
fn velocity(speed: Speed, at: u64, word: u64) -> u64 {
    match speed {
        Speed::Rest => 0,
        Speed::Slow => (word >> 52).wrapping_sub(2048),
        Speed::Step => STEPS[word as usize % 4],
        Speed::Greatest => GREATEST[word as usize % 4],
        Speed::Side => SIDES[word as usize % 8],
        Speed::Border => to_border(at, word),
        Speed::Any => word,
    }
}

/// A velocity that leads from a coordinate to the one or the other border, forward or back, or one further.
fn to_border(at: u64, word: u64) -> u64 {
    let further = u64::from(word & 14 == 14);
    let down = 0u64.wrapping_sub(at).wrapping_sub(further);
    let up = LAST.wrapping_sub(at).wrapping_add(further);
    let way = if word & 16 == 0 { down } else { up };
    if word & 1 == 0 {
        way
    } else {
        0u64.wrapping_sub(way)
    }
}

/// The mass of a body of a list.
fn mass(is_extreme: bool, word: u64) -> u64 {
    if !is_extreme {
        1 + word % 1000
    } else if word & 1 == 0 {
        1
    } else {
        0xffff_ffff
    }
}

/// Whether body `index` of so many is out: 1, or 0.
fn mark(kind: &Kind, index: u64, count: u64) -> u64 {
    let behind = count.wrapping_sub(index).wrapping_sub(1);
    (kind.first >> (index % 64) | kind.last >> (behind % 64)) & 1
}

/// Spells words at the end of the bytes.
fn spell(bytes: &mut Vec<u8>, words: &[u64]) -> Result<(), AllocError> {
    for word in words {
        bytes.extend_from_slice(&word.to_le_bytes())?;
    }
    Ok(())
}

/// Spells body `index` of so many, and tells its mass. `base` is a word of its list.
fn spell_body(
    bytes: &mut Vec<u8>,
    rng: &mut SplitMix64,
    kind: &Kind,
    base: u64,
    index: u64,
    count: u64,
) -> Result<u64, AllocError> {
    let behind = count.wrapping_sub(index);
    let id = if behind == 1 {
        u64::MAX
    } else {
        (index << 57) | (rng.next_u64() >> 7)
    };
    let mass = mass(base >> 60 & 1 == 1, rng.next_u64());
    let out = mark(kind, index, count);
    let x = coordinate(kind.place, base, index, rng.next_u64());
    let y = coordinate(kind.place, base >> 8, index, rng.next_u64());
    let z = coordinate(kind.place, base >> 16, index, rng.next_u64());
    let speed = if out == 1 { Speed::Any } else { kind.speed };
    let u = velocity(speed, x, rng.next_u64());
    let v = velocity(speed, y, rng.next_u64());
    let w = velocity(speed, z, rng.next_u64());
    spell(bytes, &[id, mass | out << 32, x, y, z, u, v, w])?;
    Ok(mass)
}

/// The folder of a list, which begins at this time.
fn folder(alloc: Global, list: u64, kind: &Kind, time: u64) -> Result<MemoryHost, Fail> {
    let mut rng = SplitMix64::from_seed(list.to_le_bytes());
    let base = rng.next_u64();
    let count = kind.least.wrapping_add(rng.next_u64() & kind.more);
    let mut init = Vec::from_slice(alloc, b"FNBSNAP1")?;
    spell(&mut init, &[count, time, 0])?;
    let mut total = 0u64;
    for index in 0..count {
        let mass = spell_body(&mut init, &mut rng, kind, base, index, count)?;
        total = total.wrapping_add(mass);
    }
    let text = text(alloc, kind, total, rng.next_u64())?;
    let mut host = MemoryHost::new(alloc);
    host.with_file(PARAMS, text.as_bytes())?;
    host.with_file(INIT, &init)?;
    Ok(host)
}

/// The parameters of a list of this mass, of a word.
fn text(alloc: Global, kind: &Kind, mass: u64, word: u64) -> Result<String, Fail> {
    let strongest = (GM_LIMIT - 1) / mass.max(1);
    let grav = strongest >> (8 * (word % 4));
    let angle = ANGLES[(word >> 8) as usize % 8];
    let soft = SOFTENINGS[(word >> 16) as usize % 8];
    let leaf = LEAVES[(word >> 24) as usize % 4];
    let edge = kind.edge;
    let text = format!(in alloc;
        "grav = {grav}\n{angle}\nsoft = {soft}\nleaf = {leaf}\nevery = 2\nedge = {edge}\n"
    )?;
    Ok(text)
}

/// Starts the run, and tells the status.
fn start(alloc: Global, host: &mut MemoryHost, pages: &str) -> u8 {
    nbody(alloc, &["start", "--pages", pages], host)
}

/// How many bodies of a snapshot are out.
fn gone(snapshot: &[u8]) -> usize {
    let mut gone = 0usize;
    for record in snapshot.chunks(64) {
        if record.get(44) == Some(&1) {
            gone = gone.wrapping_add(1);
        }
    }
    gone
}

/// Takes the list of the initial snapshot and the run to this time, and tells both statuses.
fn lead(alloc: Global, host: &mut MemoryHost, to: &str, pages: &str, walks: &str) -> (u8, u8) {
    let once = nbody(alloc, &["once", to], host);
    let went = nbody(alloc, &["go", to, "--pages", pages, "--walks", walks], host);
    (once, went)
}

/// Leads a run on, which is started, from its list in the file of the initial snapshot, and looks whether its
/// snapshot after so many ticks in all is the one of `once`.
fn check_leg(
    rt: &impl Abort,
    alloc: Global,
    host: &mut MemoryHost,
    list: u64,
    kind: &Kind,
    target: u64,
    ticks: u64,
) -> Result<(), Fail> {
    let (pages, walks) = PACES[list as usize % 2];
    let name = kind.name;
    let edge = kind.edge;
    let to = format!(in alloc; "{target}")?;
    let (once, went) = lead(alloc, host, &to, pages, walks);
    assert_eq!(rt; once, 0, "list {list}, {name}, {edge}, once {target}");
    assert_eq!(rt; went, 0, "list {list}, {name}, {edge}, go {target}");
    let left = host.bytes(AFTER_0.wrapping_add(ticks));
    assert_eq!(rt;
        left,
        host.bytes(ONCE),
        "list {list}, {name}, {edge}, to {target}"
    );
    Ok(())
}

/// Starts the run of a list, and leads it there and back.
fn check_list(rt: &impl Abort, alloc: Global, list: u64, kind: &Kind) -> Result<(), Fail> {
    let (time, target, ticks) = LEGS[list as usize % 5];
    let name = kind.name;
    let mut host = folder(alloc, list, kind, time)?;
    let (pages, _) = PACES[list as usize % 2];
    let begun = start(alloc, &mut host, pages);
    assert_eq!(rt; begun, 0, "list {list}, {name}");
    check_leg(rt, alloc, &mut host, list, kind, target, ticks)?;

    let init = Vec::from_slice(alloc, host.bytes(INIT))?;
    let there = Vec::from_slice(alloc, host.bytes(ONCE))?;
    host.with_file(INIT, &there)?;
    check_leg(
        rt,
        alloc,
        &mut host,
        list,
        kind,
        time,
        ticks.wrapping_mul(2),
    )?;
    let back = host.bytes(ONCE);
    if gone(back) == gone(&init) {
        assert_eq!(rt;
            back,
            init.as_slice(),
            "list {list}, {name}, there and back"
        );
    }
    Ok(())
}

/// Ten lists of each of these kinds, from this number on.
fn check_kinds(rt: &impl Abort, alloc: Global, first: u64, kinds: &[Kind]) -> Result<(), Fail> {
    let mut list = first;
    for kind in kinds {
        for _ in 0..10 {
            check_list(rt, alloc, list, kind)?;
            list = list.wrapping_add(1);
        }
    }
    Ok(())
}

#[test]
fn lists_of_close_bodies(rt: HostRuntime) -> Result<(), Fail> {
    check_kinds(&rt, rt.alloc(), 0, CLOSE)
}

#[test]
fn lists_of_far_bodies(rt: HostRuntime) -> Result<(), Fail> {
    check_kinds(&rt, rt.alloc(), 50, FAR)
}

#[test]
fn lists_of_bodies_that_are_out(rt: HostRuntime) -> Result<(), Fail> {
    check_kinds(&rt, rt.alloc(), 100, OUT)
}

#[test]
fn lists_of_fast_bodies(rt: HostRuntime) -> Result<(), Fail> {
    check_kinds(&rt, rt.alloc(), 150, FAST)
}

#[test]
fn lists_that_fill_pages(rt: HostRuntime) -> Result<(), Fail> {
    check_kinds(&rt, rt.alloc(), 180, FULL)
}
