//! `make` and `demo` over a host in memory. What they make, and the sum at the end of a run, were computed by another
//! program, which shares nothing with this one.

use super::*;
use nb_host::{MemoryHost, Outcome};
use std::alloc::AllocError;
use std::process::Abort;
use std::test::Fail;

const PARAMS: u64 = 0;

const INIT: u64 = 1;

/// The snapshot after three ticks.
const AFTER_3: u64 = 19;

/// What a run of 2000 bodies of seed 7 says up to time 3.
const CROWD: &[u8] = b"started bodies 2000 time 0\n\
    tick 1 time 1 out 0\ntick 2 time 2 out 0\ntick 3 time 3 out 0\ndone time 3 ticks 3 out 0\n\
    demo bodies 2000 out 0 sum 3298533724739943\n";

/// The snapshot of no bodies at time 0.
static EMPTY: [u8; 32] = [
    0x46, 0x4e, 0x42, 0x53, 0x4e, 0x41, 0x50, 0x31, 0, 0, 0, 0, 0, 0, 0, 0, //
    0, 0, 0, 0, 0, 0, 0, 0, 0, 0, 0, 0, 0, 0, 0, 0,
];

/// The parameters of two bodies.
const TWO: &[u8] =
    b"grav = 576460752303423\ntheta_num = 1\ntheta_den = 2\nsoft = 65536\nleaf = 8\nevery = 10\n";

/// The parameters of bodies at one place.
const AT_ONE_PLACE: &[u8] =
    b"grav = 1000000000\ntheta_num = 1\ntheta_den = 2\nsoft = 1\nleaf = 8\nevery = 100\n";

/// The two bodies of seed 1: id and mass, coordinates, velocities.
static TWO_OF_1: [[i64; 8]; 2] = [
    [
        1,
        466,
        549_772_308_022,
        549_787_422_347,
        549_752_079_898,
        -229,
        1076,
        1545,
    ],
    [
        2,
        534,
        549_741_419_619,
        549_775_543_666,
        549_749_380_977,
        431,
        -185,
        123,
    ],
];

/// The header of two bodies at time 0.
static HEADER_OF_TWO: [u8; 32] = [
    0x46, 0x4e, 0x42, 0x53, 0x4e, 0x41, 0x50, 0x31, 2, 0, 0, 0, 0, 0, 0, 0, //
    0, 0, 0, 0, 0, 0, 0, 0, 0, 0, 0, 0, 0, 0, 0, 0,
];

/// Spells numbers at the end of the bytes.
fn spell(bytes: &mut Vec<u8>, fields: &[i64]) -> Result<(), AllocError> {
    for field in fields {
        bytes.extend_from_slice(&field.to_le_bytes())?;
    }
    Ok(())
}

/// Runs the words, and looks at the status and at what is said in all.
fn check(
    rt: &impl Abort,
    host: &mut MemoryHost,
    alloc: Global,
    words: &[&str],
    status: u8,
    out: &[u8],
    err: &[u8],
) {
    assert_eq!(rt; nbody(alloc, words, host), status);
    assert_eq!(rt; host.said(Channel::Out), out);
    assert_eq!(rt; host.said(Channel::Err), err);
}

#[test]
fn two_made(rt: HostRuntime) -> Result<(), Fail> {
    let alloc = rt.alloc();
    let mut host = MemoryHost::new(alloc);
    let there = b"nbody: params or init.nbs is there\n";
    check(
        &rt,
        &mut host,
        alloc,
        &["make", "1", "2"],
        0,
        b"made bodies 2\n",
        b"",
    );
    assert_eq!(rt; host.bytes(PARAMS), TWO);
    let mut init = Vec::from_slice(alloc, &HEADER_OF_TWO)?;
    for fields in &TWO_OF_1 {
        spell(&mut init, fields)?;
    }
    assert_eq!(rt; host.bytes(INIT), init.as_slice());
    check(
        &rt,
        &mut host,
        alloc,
        &["make", "1", "2"],
        9,
        b"made bodies 2\n",
        there,
    );
    // What is made outlasts a crash, and a run can be started of it.
    host.crash(Outcome::Lost)?;
    assert_eq!(rt; host.bytes(PARAMS), TWO);
    assert_eq!(rt; nbody(alloc, &["start"], &mut host), 0);
    Ok(())
}

#[test]
fn none_made(rt: HostRuntime) -> Result<(), Fail> {
    let alloc = rt.alloc();
    let mut host = MemoryHost::new(alloc);
    check(
        &rt,
        &mut host,
        alloc,
        &["make", "5", "0"],
        0,
        b"made bodies 0\n",
        b"",
    );
    assert_eq!(rt; host.bytes(INIT), EMPTY.as_slice());
    let there = b"nbody: params or init.nbs is there\n";
    check(
        &rt,
        &mut host,
        alloc,
        &["demo", "5", "0", "1"],
        9,
        b"made bodies 0\n",
        there,
    );
    Ok(())
}

#[test]
fn two_led(rt: HostRuntime) -> Result<(), Fail> {
    let alloc = rt.alloc();
    let mut host = MemoryHost::new(alloc);
    let far = ["demo", "1", "2", "1099511627777"];
    let too_far = b"nbody: 1099511627777 ticks are more than 2^40\n";
    check(&rt, &mut host, alloc, &far, 8, b"", too_far);
    // The sum of the six coordinates of the two bodies that are made: none of them moves.
    let mut host = MemoryHost::new(alloc);
    let words = ["demo", "1", "2", "0"];
    let out = b"started bodies 2 time 0\ndone time 0 ticks 0 out 0\n\
        demo bodies 2 out 0 sum 3298578154529\n";
    check(&rt, &mut host, alloc, &words, 0, out, b"");
    assert_eq!(rt; host.bytes(PARAMS), TWO);
    let started = b"nbody: already started\n";
    check(&rt, &mut host, alloc, &words, 6, out, started);
    // Where a file is there, but no run.
    let mut host = MemoryHost::new(alloc);
    host.with_file(INIT, &EMPTY)?;
    let there = b"nbody: params or init.nbs is there\n";
    check(&rt, &mut host, alloc, &words, 9, b"", there);
    Ok(())
}

/// A run of 2000 bodies with these options, and its last snapshot.
fn crowd_led(rt: &impl Abort, alloc: Global, pages: &str, walks: &str) -> Result<MemoryHost, Fail> {
    let mut host = MemoryHost::new(alloc);
    let words = ["demo", "7", "2000", "3", "--pages", pages, "--walks", walks];
    check(rt, &mut host, alloc, &words, 0, CROWD, b"");
    Ok(host)
}

#[test]
fn a_crowd_led(rt: HostRuntime) -> Result<(), Fail> {
    let alloc = rt.alloc();
    let small = crowd_led(&rt, alloc, "16", "64")?;
    let large = crowd_led(&rt, alloc, "256", "1")?;
    let last = small.bytes(AFTER_3);
    assert_eq!(rt; last.len(), 128_032);
    assert_eq!(rt; last, large.bytes(AFTER_3));
    Ok(())
}

/// How often a tick reads its files, of 512 bodies at one place and at rest, by so many pages and walks.
fn reads_of(rt: &impl Abort, alloc: Global, pages: &str, walks: &str) -> Result<u64, Fail> {
    let mut init = Vec::from_slice(alloc, b"FNBSNAP1")?;
    spell(&mut init, &[512, 0, 0])?;
    for id in 0i64..512 {
        spell(&mut init, &[id, 1, 0, 0, 0, 0, 0, 0])?;
    }
    let mut host = MemoryHost::new(alloc);
    host.with_file(PARAMS, AT_ONE_PLACE)?;
    host.with_file(INIT, &init)?;
    assert_eq!(rt; nbody(alloc, &["start"], &mut host), 0);
    let before = host.reads();
    let words = ["go", "1", "--pages", pages, "--walks", walks];
    assert_eq!(rt; nbody(alloc, &words, &mut host), 0);
    Ok(host.reads().wrapping_sub(before))
}

#[test]
fn walks_share_pages(rt: HostRuntime) -> Result<(), Fail> {
    // Each walk meets all twelve pages of bodies.
    let one_by_one = reads_of(&rt, rt.alloc(), "4", "1")?;
    let together = reads_of(&rt, rt.alloc(), "4", "64")?;
    let resident = reads_of(&rt, rt.alloc(), "256", "64")?;
    assert!(rt; together <= one_by_one / 8);
    assert!(rt; resident < together);
    Ok(())
}
