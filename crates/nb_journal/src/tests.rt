//! Bytes that were written by hand, files that are no journal, and crashes.

use super::*;
use nb_host::{MemoryHost, Outcome};
use nb_model::{Edge, Params};
use std::alloc::Global;
use std::test::*;

const FILE: u64 = 2;

const PARAMS: Params = Params {
    grav: 1000000000,
    theta_num: 1,
    theta_den: 2,
    soft: 1,
    leaf: 8,
    every: 100,
    edge: Edge::Wrap,
};

/// The header of a run of one body from time 0 on with `PARAMS`, up to its last number.
const FRONT: [u8; 88] = [
    0x53, 0x4e, 0x42, 0x4a, 0x52, 0x4e, 0x4c, 0x32, 0, 0xca, 0x9a, 0x3b, 0, 0, 0, 0, //
    1, 0, 0, 0, 0, 0, 0, 0, 2, 0, 0, 0, 0, 0, 0, 0, //
    1, 0, 0, 0, 0, 0, 0, 0, 8, 0, 0, 0, 0, 0, 0, 0, //
    100, 0, 0, 0, 0, 0, 0, 0, 1, 0, 0, 0, 0, 0, 0, 0, //
    0, 0, 0, 0, 0, 0, 0, 0, 0, 0, 0, 0, 0, 0, 0, 0, //
    1, 0, 0, 0, 0, 0, 0, 0,
];

/// The leg to time 5.
const LEG: [u8; 32] = [
    0x47, 0x4c, 0, 0, 0, 0, 0, 0, 5, 0, 0, 0, 0, 0, 0, 0, //
    0, 0, 0, 0, 0, 0, 0, 0, 0, 0, 0, 0, 0, 0, 0, 0,
];

/// Tick 1, after which no body is out.
const TICK: [u8; 32] = [
    0x47, 0x54, 0, 0, 0, 0, 0, 0, 1, 0, 0, 0, 0, 0, 0, 0, //
    0, 0, 0, 0, 0, 0, 0, 0, 0, 0, 0, 0, 0, 0, 0, 0,
];

/// The bytes of a journal with `LEG` and `TICK`.
fn journal_bytes() -> [u8; 8192] {
    let mut bytes = [0; 8192];
    bytes[..88].copy_from_slice(&FRONT);
    bytes[4096..4128].copy_from_slice(&LEG);
    bytes[4128..4160].copy_from_slice(&TICK);
    bytes
}

/// Adds an entry, where it is a lawful next one.
fn add(host: &mut MemoryHost, journal: Journal, entry: Entry) -> Result<Journal, JournalError> {
    if !journal.allows(entry) {
        return Err(JournalError::Damaged(1));
    }
    Ok(journal.append(host, entry)?)
}

/// The entry of this number, where there is one.
fn entry_at(host: &mut MemoryHost, journal: &Journal, index: u64) -> Result<Entry, JournalError> {
    if index >= journal.entries() {
        return Err(JournalError::Damaged(1));
    }
    journal.entry(host, index)
}

/// Starts the journal of a run of one body.
fn start(host: &mut MemoryHost) -> Result<Journal, JournalError> {
    let ready = prepare(host, &PARAMS, 1, 0, 0)?;
    Ok(start_gate(host, ready)?)
}

/// How many entries are found: none where no journal is started.
fn found(host: &mut MemoryHost) -> Result<Option<u64>, JournalError> {
    match find(host) {
        Ok(Opened::Fresh) => Ok(None),
        Ok(Opened::Made(journal)) => Ok(Some(journal.entries())),
        Err(error) => Err(error),
    }
}

/// What is found of a file of these bytes.
fn found_in(alloc: Global, bytes: &[u8]) -> Result<Result<Option<u64>, JournalError>, Fail> {
    let mut host = MemoryHost::new(alloc);
    host.with_file(FILE, bytes)?;
    Ok(found(&mut host))
}

#[test]
fn writes_and_reads_bytes(rt: HostRuntime) -> Result<(), Fail> {
    let mut host = MemoryHost::new(rt.alloc());
    let journal = start(&mut host)?;
    let journal = add(&mut host, journal, Entry::Leg(5))?;
    assert_eq!(rt; entry_at(&mut host, &journal, 0), Ok(Entry::Leg(5)));
    let journal = add(&mut host, journal, Entry::Tick(1, 0))?;
    assert_eq!(rt;
        (journal.entries(), journal.ticks(), journal.time()),
        (2, 1, 1)
    );
    assert_eq!(rt; (journal.target(), journal.gone()), (5, 0));
    assert_eq!(rt; (journal.count(), journal.begin_time()), (1, 0));
    assert_eq!(rt; journal.params(), PARAMS);
    assert_eq!(rt; host.bytes(FILE), journal_bytes().as_slice());
    // Four calls of `prepare`, three of `start_gate`, four for each entry, and one that read an entry.
    assert_eq!(rt; host.calls(), 16);
    Ok(())
}

/// Changes of a journal with `LEG` and `TICK`, each a byte's offset and its value, and what is found then.
const FILES: [(&[(usize, u8)], Result<Option<u64>, JournalError>); 17] = [
    (&[], Ok(Some(2))),
    // No journal is started.
    (&[(0, 0)], Ok(None)),
    (&[(0, 0x47)], Ok(None)),
    // Version 1, with an open box and with one that wraps. There is no version 3.
    (&[(7, 0x31), (80, 0)], Ok(Some(2))),
    (&[(7, 0x31)], Err(JournalError::Damaged(0))),
    (&[(7, 0x33)], Err(JournalError::Damaged(0))),
    // The border of the box is neither, the name is another, and a byte behind the numbers isn't 0.
    (&[(80, 2)], Err(JournalError::Damaged(0))),
    (&[(1, 0)], Err(JournalError::Damaged(0))),
    (&[(4095, 1)], Err(JournalError::Damaged(0))),
    // More bodies are out than there are, and a parameter is out of range.
    (&[(72, 2)], Err(JournalError::Damaged(0))),
    (&[(40, 33)], Err(JournalError::Damaged(0))),
    // A gate that isn't G, whatever it is. What stands behind it isn't looked at.
    (&[(4096, 1), (4129, 0)], Ok(Some(0))),
    (&[(4128, 0x53)], Ok(Some(1))),
    // The leg leads nowhere, the tick is the second, and a byte of an entry isn't 0.
    (&[(4104, 0)], Err(JournalError::Damaged(4096))),
    (&[(4098, 1)], Err(JournalError::Damaged(4096))),
    (&[(4136, 2)], Err(JournalError::Damaged(4128))),
    (&[(4159, 1)], Err(JournalError::Damaged(4128))),
];

#[test]
fn finds_what_a_file_is(rt: HostRuntime) -> Result<(), Fail> {
    for (changes, want) in &FILES {
        let mut bytes = journal_bytes();
        for (offset, value) in *changes {
            if *offset < 8192 {
                bytes[*offset] = *value;
            }
        }
        assert_eq!(rt; found_in(rt.alloc(), &bytes)?, *want, "{changes:?}");
    }
    Ok(())
}

#[test]
fn finds_what_a_short_file_is(rt: HostRuntime) -> Result<(), Fail> {
    assert_eq!(rt; found_in(rt.alloc(), &[0x53; 4096])?, Ok(None));
    assert_eq!(rt;
        found_in(rt.alloc(), &[0x53; 4097])?,
        Err(JournalError::Damaged(0))
    );
    // Behind the header the page isn't whole.
    let bytes = journal_bytes();
    let found = found_in(rt.alloc(), bytes.get(..4097).unwrap_or(&[]))?;
    assert_eq!(rt; found, Err(JournalError::Damaged(4096)));
    Ok(())
}

const OUTCOMES: [Outcome; 6] = [
    Outcome::Kept,
    Outcome::Lost,
    Outcome::Filled(b'S'),
    Outcome::Filled(b'G'),
    Outcome::Filled(b'F'),
    Outcome::Filled(0),
];

/// No journal is started.
const FRESH: Option<u64> = None;

/// How many entries are found where so many host calls pass, the next fails, and a crash has one of
/// `OUTCOMES`: calls 1 to 4 are those of `prepare`, 5 to 7 of `start_gate`, 8 to 11 add a leg, and 12 to 15
/// a tick.
const CRASHES: [[Option<u64>; 6]; 16] = [
    [FRESH, FRESH, FRESH, FRESH, FRESH, FRESH],
    [FRESH, FRESH, FRESH, FRESH, FRESH, FRESH],
    [FRESH, FRESH, FRESH, FRESH, FRESH, FRESH],
    [FRESH, FRESH, FRESH, FRESH, FRESH, FRESH],
    [FRESH, FRESH, FRESH, FRESH, FRESH, FRESH],
    [FRESH, FRESH, Some(0), FRESH, FRESH, FRESH],
    [Some(0), FRESH, Some(0), FRESH, FRESH, FRESH],
    [Some(0), Some(0), Some(0), Some(0), Some(0), Some(0)],
    [Some(0), Some(0), Some(0), Some(0), Some(0), Some(0)],
    [Some(0), Some(0), Some(0), Some(1), Some(0), Some(0)],
    [Some(1), Some(0), Some(0), Some(1), Some(0), Some(0)],
    [Some(1), Some(1), Some(1), Some(1), Some(1), Some(1)],
    [Some(1), Some(1), Some(1), Some(1), Some(1), Some(1)],
    [Some(1), Some(1), Some(1), Some(2), Some(1), Some(1)],
    [Some(2), Some(1), Some(1), Some(2), Some(1), Some(1)],
    [Some(2), Some(2), Some(2), Some(2), Some(2), Some(2)],
];

/// Starts a journal and adds a leg and a tick.
fn write(host: &mut MemoryHost) -> Result<Journal, JournalError> {
    let journal = start(host)?;
    let journal = add(host, journal, Entry::Leg(5))?;
    add(host, journal, Entry::Tick(1, 0))
}

/// What is found after a crash with this outcome, where so many host calls passed.
fn found_after(
    alloc: Global,
    calls: u64,
    outcome: Outcome,
) -> Result<Result<Option<u64>, JournalError>, Fail> {
    let mut host = MemoryHost::new(alloc);
    host.fuse(calls);
    let _ = write(&mut host);
    host.crash(outcome)?;
    Ok(found(&mut host))
}

#[test]
fn crashes_leave_whole_entries(rt: HostRuntime) -> Result<(), Fail> {
    for calls in 0..16usize {
        for which in 0..6usize {
            let want = CRASHES[calls][which];
            let after = found_after(rt.alloc(), calls as u64, OUTCOMES[which])?;
            assert_eq!(rt; after, Ok(want), "{which} after {calls}");
        }
    }
    Ok(())
}

/// Prepares a journal over a file of these bytes, of which so many host calls pass. Answers what is found
/// after the crash, and how many calls there were.
fn found_over(
    alloc: Global,
    bytes: &[u8],
    calls: u64,
    outcome: Outcome,
) -> Result<(Result<Option<u64>, JournalError>, u64), Fail> {
    let mut host = MemoryHost::new(alloc);
    host.with_file(FILE, bytes)?;
    host.fuse(calls);
    let _ = prepare(&mut host, &PARAMS, 1, 0, 0);
    let made = host.calls();
    host.crash(outcome)?;
    Ok((found(&mut host), made))
}

/// Files in which no journal is started, and how many calls `prepare` makes over each: the length, page 0, a
/// sync and the page of entries, and where the file is longer, a cut and a sync before page 0.
const OVER: [(&[u8], u64); 3] = [(&[], 4), (&[b'S'; 4096], 4), (&[b'G'; 8192], 6)];

#[test]
fn none_is_started_by_prepare(rt: HostRuntime) -> Result<(), Fail> {
    for (bytes, calls) in OVER {
        for passed in 0..7u64 {
            for outcome in OUTCOMES {
                let (after, made) = found_over(rt.alloc(), bytes, passed, outcome)?;
                assert_eq!(rt; after, Ok(FRESH), "after {passed}");
                assert_eq!(rt; made, calls.min(passed + 1), "after {passed}");
            }
        }
    }
    Ok(())
}

/// How many entries are found where the last of a page is added to 127: its bytes are written by call 1, the
/// next page by call 2, and its gate by call 4.
const PAGE_END: [[u64; 6]; 6] = [
    [127, 127, 127, 127, 127, 127],
    [127, 127, 127, 127, 127, 127],
    [127, 127, 127, 127, 127, 127],
    [127, 127, 127, 128, 127, 127],
    [128, 127, 127, 128, 127, 127],
    [128, 128, 128, 128, 128, 128],
];

/// Starts a journal of 127 entries, the last but one of its page, and adds one more, of which so many host
/// calls pass. Answers what is found after the crash, and whether the next page is zeros.
fn found_at_page_end(
    alloc: Global,
    calls: u64,
    outcome: Outcome,
) -> Result<Result<(Option<u64>, bool), JournalError>, Fail> {
    let mut host = MemoryHost::new(alloc);
    let journal = start(&mut host)?;
    let mut journal = add(&mut host, journal, Entry::Leg(200))?;
    for number in 1..127u64 {
        journal = add(&mut host, journal, Entry::Tick(number, 0))?;
    }
    host.fuse(calls);
    let _ = add(&mut host, journal, Entry::Tick(127, 0));
    host.crash(outcome)?;
    let zeros = host.bytes(FILE).iter().skip(8192).all(|byte| *byte == 0);
    Ok(found(&mut host).map(|entries| (entries, zeros)))
}

#[test]
fn a_page_is_begun_before_the_last_gate(rt: HostRuntime) -> Result<(), Fail> {
    for calls in 0..6usize {
        for which in 0..6usize {
            let want = PAGE_END[calls][which];
            let after = found_at_page_end(rt.alloc(), calls as u64, OUTCOMES[which])?;
            let (entries, zeros) = after.unwrap_or((FRESH, false));
            assert_eq!(rt; entries, Some(want), "{which} after {calls}");
            assert!(rt; zeros || want == 127, "{which} after {calls}");
        }
    }
    Ok(())
}
