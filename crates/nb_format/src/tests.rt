//! Bytes that were written by hand, files that are no snapshot, and calls that fail.

use super::*;
use nb_host::{Host, HostError, MemoryHost, Outcome};
use nb_model::{At, Body, V3};
use std::alloc::Global;
use std::test::*;

const FILE: u64 = 1;

/// One body at time 0: id 7, mass 3, at (5, 5, 5), with the velocity (1, 0, 0).
const ONE: [u8; 96] = [
    0x46, 0x4e, 0x42, 0x53, 0x4e, 0x41, 0x50, 0x31, 1, 0, 0, 0, 0, 0, 0, 0, //
    0, 0, 0, 0, 0, 0, 0, 0, 0, 0, 0, 0, 0, 0, 0, 0, //
    7, 0, 0, 0, 0, 0, 0, 0, 3, 0, 0, 0, 0, 0, 0, 0, //
    5, 0, 0, 0, 0, 0, 0, 0, 5, 0, 0, 0, 0, 0, 0, 0, //
    5, 0, 0, 0, 0, 0, 0, 0, 1, 0, 0, 0, 0, 0, 0, 0, //
    0, 0, 0, 0, 0, 0, 0, 0, 0, 0, 0, 0, 0, 0, 0, 0,
];

/// `SLOW` and `GONE` at time 258.
const TWO: [u8; 160] = [
    0x46, 0x4e, 0x42, 0x53, 0x4e, 0x41, 0x50, 0x31, 2, 0, 0, 0, 0, 0, 0, 0, //
    2, 1, 0, 0, 0, 0, 0, 0, 0, 0, 0, 0, 0, 0, 0, 0, //
    7, 0, 0, 0, 0, 0, 0, 0, 1, 0, 0, 0, 0, 0, 0, 0, //
    0, 0, 0, 0, 0, 0, 0, 0, 0, 0, 0, 0, 0, 0, 0, 0, //
    0, 0, 0, 0, 0, 0, 0, 0, 0xff, 0xff, 0xff, 0xff, 0xff, 0xff, 0xff, 0x1f, //
    0, 0, 0, 0, 0, 0, 0, 0, 1, 0, 0, 0, 0, 0, 0, 0xe0, //
    9, 0, 0, 0, 0, 0, 0, 0, 0xff, 0xff, 0xff, 0xff, 1, 0, 0, 0, //
    0xff, 0xff, 0xff, 0xff, 0xff, 0, 0, 0, 0, 0, 0, 0, 0, 0, 0, 0, //
    4, 3, 2, 1, 0, 0, 0, 0, 0xff, 0xff, 0xff, 0xff, 0xff, 0xff, 0xff, 0xff, //
    0x19, 0xfc, 0xff, 0xff, 0xff, 0xff, 0xff, 0xff, 0, 0, 0, 0, 0, 0, 0, 0x80,
];

const EMPTY: [u8; 32] = [
    0x46, 0x4e, 0x42, 0x53, 0x4e, 0x41, 0x50, 0x31, 0, 0, 0, 0, 0, 0, 0, 0, //
    0, 0, 0, 0, 0, 0, 0, 0, 0, 0, 0, 0, 0, 0, 0, 0,
];

const FIRST: Body = Body {
    id: 7,
    mass: 3,
    out: false,
    at: At { x: 5, y: 5, z: 5 },
    v: V3 { x: 1, y: 0, z: 0 },
};

/// A body at a corner of the box, with the greatest speeds.
const SLOW: Body = Body {
    id: 7,
    mass: 1,
    out: false,
    at: At { x: 0, y: 0, z: 0 },
    v: V3 {
        x: 2305843009213693951,
        y: 0,
        z: -2305843009213693951,
    },
};

/// A body that has left the box, and is faster.
const GONE: Body = Body {
    id: 9,
    mass: 4294967295,
    out: true,
    at: At {
        x: 1099511627775,
        y: 0,
        z: 16909060,
    },
    v: V3 {
        x: -1,
        y: -999,
        z: -9223372036854775808,
    },
};

/// Writes `SLOW` and `GONE` at time 258.
fn write_two(host: &mut MemoryHost) -> Result<u64, HostError> {
    let filling = Fresh::new(FILE, 2, 258).begin(host)?;
    let filling = filling.add(host, &SLOW)?;
    let filling = filling.add(host, &GONE)?;
    let closed = filling.close(host)?;
    Ok(closed.file())
}

/// The bodies of the whole file.
fn read_list(alloc: Global, host: &mut MemoryHost) -> Result<Vec<Body>, SnapError> {
    let mut reader = SnapReader::begin(host, FILE)?;
    let mut bodies = Vec::new(alloc);
    for _ in 0..reader.count() {
        let Some(body) = reader.next(host)? else {
            return Err(SnapError::NoMemory);
        };
        if bodies.push(body).is_err() {
            return Err(SnapError::NoMemory);
        }
    }
    match reader.next(host)? {
        None => Ok(bodies),
        Some(_) => Err(SnapError::NoMemory),
    }
}

/// How many bodies are read of a file of these bytes.
fn reads_as(alloc: Global, bytes: &[u8]) -> Result<Result<usize, SnapError>, Fail> {
    let mut host = MemoryHost::new(alloc);
    host.with_file(FILE, bytes)?;
    Ok(read_list(alloc, &mut host).map(|bodies| bodies.len()))
}

#[test]
fn reads_bytes(rt: HostRuntime) -> Result<(), Fail> {
    let mut host = MemoryHost::new(rt.alloc());
    host.with_file(FILE, &ONE)?;
    let reader = SnapReader::begin(&mut host, FILE)?;
    assert_eq!(rt; (reader.count(), reader.time()), (1, 0));
    assert_eq!(rt;
        read_list(rt.alloc(), &mut host)?.as_slice(),
        [FIRST].as_slice()
    );
    host.with_file(FILE, &TWO)?;
    let reader = SnapReader::begin(&mut host, FILE)?;
    assert_eq!(rt; (reader.count(), reader.time()), (2, 258));
    assert_eq!(rt;
        read_list(rt.alloc(), &mut host)?.as_slice(),
        [SLOW, GONE].as_slice()
    );
    assert_eq!(rt; reads_as(rt.alloc(), &EMPTY)?, Ok(0));
    Ok(())
}

#[test]
fn writes_bytes(rt: HostRuntime) -> Result<(), Fail> {
    let mut host = MemoryHost::new(rt.alloc());
    assert_eq!(rt; write_two(&mut host)?, FILE);
    assert_eq!(rt; host.bytes(FILE), TWO.as_slice());
    let filling = Fresh::new(FILE + 1, 1, 0).begin(&mut host)?;
    let filling = filling.add(&mut host, &FIRST)?;
    assert_eq!(rt; filling.close(&mut host)?.file(), FILE + 1);
    assert_eq!(rt; host.bytes(FILE + 1), ONE.as_slice());
    let filling = Fresh::new(FILE + 2, 0, 0).begin(&mut host)?;
    assert_eq!(rt; filling.close(&mut host)?.file(), FILE + 2);
    assert_eq!(rt; host.bytes(FILE + 2), EMPTY.as_slice());
    Ok(())
}

/// Changes of `TWO`, each a byte's offset and its value, and why it is no snapshot then.
const BAD: [(&[(usize, u8)], SnapError); 35] = [
    // The gate is shut, the name is another, the count is too great, a reserved byte isn't 0.
    (&[(0, 0)], SnapError::Unfinished),
    (&[(7, 0x32)], SnapError::Magic),
    (&[(11, 1)], SnapError::Count),
    (&[(24, 1)], SnapError::Zeros),
    (&[(31, 1)], SnapError::Zeros),
    // The count is one more, and one less.
    (&[(8, 3)], SnapError::Length),
    (&[(8, 1)], SnapError::Length),
    // The ids fall, and are equal.
    (&[(96, 6)], SnapError::IdOrder(1)),
    (&[(96, 7)], SnapError::IdOrder(1)),
    (&[(32, 4), (96, 4)], SnapError::IdOrder(1)),
    // The mass is 0. The flag is 2, and more.
    (&[(40, 0)], SnapError::Mass(0)),
    (
        &[(104, 0), (105, 0), (106, 0), (107, 0)],
        SnapError::Mass(1),
    ),
    (&[(44, 2)], SnapError::Flag(0)),
    (&[(47, 1)], SnapError::Flag(0)),
    (&[(108, 2)], SnapError::Flag(1)),
    // A coordinate is 2^40, also of a body that has left the box.
    (&[(53, 1)], SnapError::Place(0)),
    (&[(61, 1)], SnapError::Place(0)),
    (&[(69, 1)], SnapError::Place(0)),
    (&[(125, 1)], SnapError::Place(1)),
    // A speed in the box is above 2^61, is 2^61, is -2^61, and is below that.
    (&[(79, 0x20)], SnapError::Speed(0)),
    (&[(87, 0x20)], SnapError::Speed(0)),
    (&[(88, 0)], SnapError::Speed(0)),
    (&[(95, 0x80)], SnapError::Speed(0)),
    (&[(108, 0)], SnapError::Speed(1)),
    // Of two bad fields the first counts: of the header,
    (&[(7, 0x32), (0, 0)], SnapError::Unfinished),
    (&[(11, 1), (7, 0x32)], SnapError::Magic),
    (&[(24, 1), (11, 1)], SnapError::Count),
    (&[(8, 3), (24, 1)], SnapError::Zeros),
    // of the header and a record,
    (&[(40, 0), (8, 3)], SnapError::Length),
    // of a record,
    (&[(108, 2), (96, 7)], SnapError::IdOrder(1)),
    (&[(44, 2), (40, 0)], SnapError::Mass(0)),
    (&[(53, 1), (44, 2)], SnapError::Flag(0)),
    (&[(88, 0), (69, 1)], SnapError::Place(0)),
    // and of two records.
    (&[(96, 7), (88, 0)], SnapError::Speed(0)),
    (&[(125, 1), (40, 0)], SnapError::Mass(0)),
];

/// Changes that leave `TWO` a snapshot: ids of 0 and 2^64 - 2^56 + 9, and a speed of a body that is out.
const GOOD: [(usize, u8); 3] = [(32, 0), (103, 0xff), (159, 0x20)];

/// How many bodies are read of `TWO` with these changes.
fn changed_reads_as(
    alloc: Global,
    changes: &[(usize, u8)],
) -> Result<Result<usize, SnapError>, Fail> {
    let mut bytes = TWO;
    for (at, byte) in changes {
        if *at < bytes.len() {
            bytes[*at] = *byte;
        }
    }
    reads_as(alloc, &bytes)
}

#[test]
fn tells_the_first_bad_field(rt: HostRuntime) -> Result<(), Fail> {
    for (changes, error) in &BAD {
        assert_eq!(rt;
            changed_reads_as(rt.alloc(), *changes)?,
            Err(*error),
            "{changes:?}"
        );
    }
    for change in GOOD {
        assert_eq!(rt;
            changed_reads_as(rt.alloc(), &[change])?,
            Ok(2),
            "{change:?}"
        );
    }
    Ok(())
}

/// Lengths of a front of `TWO`, and why it is no snapshot.
const SHORTER: [(usize, SnapError); 8] = [
    (0, SnapError::Short),
    (1, SnapError::Short),
    (31, SnapError::Short),
    (32, SnapError::Length),
    (33, SnapError::Length),
    (95, SnapError::Length),
    (96, SnapError::Length),
    (159, SnapError::Length),
];

#[test]
fn refuses_other_lengths(rt: HostRuntime) -> Result<(), Fail> {
    for (length, error) in SHORTER {
        let (front, _) = TWO.split_at(length.min(160));
        assert_eq!(rt; reads_as(rt.alloc(), front)?, Err(error), "{length}");
    }
    let mut longer = [0; 33];
    longer[..32].copy_from_slice(&EMPTY);
    assert_eq!(rt; reads_as(rt.alloc(), &longer)?, Err(SnapError::Length));
    // A file that isn't there, one that is too short for its shut gate to count, and the one body without its
    // last byte.
    let mut host = MemoryHost::new(rt.alloc());
    assert_eq!(rt; SnapReader::begin(&mut host, FILE), Err(SnapError::Short));
    assert_eq!(rt; reads_as(rt.alloc(), &[0; 31])?, Err(SnapError::Short));
    let (front, _) = ONE.split_at(95);
    assert_eq!(rt; reads_as(rt.alloc(), front)?, Err(SnapError::Length));
    Ok(())
}

#[test]
fn looks_at_a_file(rt: HostRuntime) -> Result<(), Fail> {
    let mut host = MemoryHost::new(rt.alloc());
    host.with_file(FILE, &ONE)?;
    assert_eq!(rt; snap_finished(&mut host, FILE, 1)?, true);
    assert_eq!(rt; snap_finished(&mut host, FILE, 0)?, false);
    assert_eq!(rt; snap_finished(&mut host, FILE + 1, 0)?, false);
    let mut shut = ONE;
    shut[0] = 0;
    host.with_file(FILE, &shut)?;
    assert_eq!(rt; snap_finished(&mut host, FILE, 1)?, false);
    Ok(())
}

/// A writer makes 10 calls for two bodies: cut, sync, write, sync, write; a write for each body; sync,
/// write, sync.
#[test]
fn a_fault_leaves_the_file_unfinished(rt: HostRuntime) -> Result<(), Fail> {
    for call in 1..11 {
        let mut host = MemoryHost::new(rt.alloc());
        host.with_file(FILE, &[1; 200])?;
        host.fail_at(&[call])?;
        assert_eq!(rt; write_two(&mut host), Err(HostError::Fault), "call {call}");
        assert_eq!(rt; host.calls(), call);
        assert_eq!(rt;
            snap_finished(&mut host, FILE, 2)?,
            call == 10,
            "call {call}"
        );
        assert!(rt; call < 10 || host.bytes(FILE) == TWO.as_slice());
    }
    Ok(())
}

const OUTCOMES: [Outcome; 4] = [
    Outcome::Kept,
    Outcome::Lost,
    Outcome::Filled(b'F'),
    Outcome::Filled(0),
];

/// Whether the file is finished where so many host calls pass, the next fails, and a crash has one of
/// `OUTCOMES`: calls 1 to 5 are those of `begin`, 6 and 7 add the bodies, and 8 to 10 are those of `close`.
const FINISHED: [[bool; 4]; 11] = [
    [false, false, false, false],
    [false, false, false, false],
    [false, false, false, false],
    [false, false, false, false],
    [false, false, false, false],
    [false, false, false, false],
    [false, false, false, false],
    [false, false, false, false],
    [false, false, true, false],
    [true, false, true, false],
    [true, true, true, true],
];

/// Whether the file is finished after a crash with this outcome, and whether it is the snapshot, where so many
/// host calls passed. The file is an unfinished one of the same length before.
fn left_after(alloc: Global, calls: u64, outcome: Outcome) -> Result<(bool, bool), Fail> {
    let mut host = MemoryHost::new(alloc);
    host.with_file(FILE, &[1; 160])?;
    host.fuse(calls);
    let _ = write_two(&mut host);
    host.crash(outcome)?;
    let finished = snap_finished(&mut host, FILE, 2)?;
    Ok((finished, host.bytes(FILE) == TWO.as_slice()))
}

#[test]
fn crashes_leave_no_part_of_a_snapshot(rt: HostRuntime) -> Result<(), Fail> {
    for calls in 0..11usize {
        for which in 0..4usize {
            let want = FINISHED[calls][which];
            let after = left_after(rt.alloc(), calls as u64, OUTCOMES[which])?;
            assert_eq!(rt; after, (want, want), "{which} after {calls}");
        }
    }
    Ok(())
}

/// A reader makes 2 calls for the header, and one for each body. After a refusal it is as it was.
#[test]
fn a_refusal_leaves_the_reader(rt: HostRuntime) -> Result<(), Fail> {
    let mut host = MemoryHost::new(rt.alloc());
    host.with_file(FILE, &TWO)?;
    for call in 1..5 {
        host.fail_at(&[call])?;
        assert!(rt; matches!(read_list(rt.alloc(), &mut host), Err(SnapError::Fault)));
    }
    host.fail_at(&[3])?;
    let mut reader = SnapReader::begin(&mut host, FILE)?;
    assert_eq!(rt; reader.next(&mut host), Err(SnapError::Fault));
    assert_eq!(rt; reader.next(&mut host)?, Some(SLOW));
    host.with_file(FILE, &ONE)?;
    assert_eq!(rt; reader.next(&mut host), Err(SnapError::Length));
    host.with_file(FILE, &TWO)?;
    assert_eq!(rt; reader.next(&mut host)?, Some(GONE));
    Ok(())
}
