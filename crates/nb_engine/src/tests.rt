//! Journals that were written by hand, files that are none, and calls that fail.

use super::*;
use nb_host::{MemoryHost, PageName};
use nb_model::{Edge, Params};
use std::alloc::Global;
use std::test::*;

/// The file of the journal.
const FILE: u64 = 2;

/// The header of a run of three bodies from time 4 on, when one of them was out.
const FRONT: [u8; 88] = [
    0x53, 0x4e, 0x42, 0x4a, 0x52, 0x4e, 0x4c, 0x32, 0, 0xca, 0x9a, 0x3b, 0, 0, 0, 0, //
    1, 0, 0, 0, 0, 0, 0, 0, 2, 0, 0, 0, 0, 0, 0, 0, //
    5, 0, 0, 0, 0, 0, 0, 0, 8, 0, 0, 0, 0, 0, 0, 0, //
    100, 0, 0, 0, 0, 0, 0, 0, 3, 0, 0, 0, 0, 0, 0, 0, //
    4, 0, 0, 0, 0, 0, 0, 0, 1, 0, 0, 0, 0, 0, 0, 0, //
    1, 0, 0, 0, 0, 0, 0, 0,
];

/// The leg to time 9.
const LEG: [u8; 32] = [
    0x47, 0x4c, 0, 0, 0, 0, 0, 0, 9, 0, 0, 0, 0, 0, 0, 0, //
    0, 0, 0, 0, 0, 0, 0, 0, 0, 0, 0, 0, 0, 0, 0, 0,
];

/// Tick 1, after which two bodies are out.
const TICK: [u8; 32] = [
    0x47, 0x54, 0, 0, 0, 0, 0, 0, 1, 0, 0, 0, 0, 0, 0, 0, //
    2, 0, 0, 0, 0, 0, 0, 0, 0, 0, 0, 0, 0, 0, 0, 0,
];

/// What the header tells, before its entries.
const BEGUN: Shown = Shown {
    time: 4,
    ticks: 0,
    target: 4,
    count: 3,
    gone: 1,
    params: Params {
        grav: 1000000000,
        theta_num: 1,
        theta_den: 2,
        soft: 5,
        leaf: 8,
        every: 100,
        edge: Edge::Wrap,
    },
};

/// The bytes of a journal with `LEG` and `TICK`.
fn journal_bytes() -> [u8; 8192] {
    let mut bytes = [0; 8192];
    bytes[..88].copy_from_slice(&FRONT);
    bytes[4096..4128].copy_from_slice(&LEG);
    bytes[4128..4160].copy_from_slice(&TICK);
    bytes
}

/// What is shown of a folder whose journal file has these bytes.
fn shown_of(alloc: Global, bytes: &[u8]) -> Result<Result<Shown, Refusal>, Fail> {
    let mut host = MemoryHost::new(alloc);
    host.with_file(FILE, bytes)?;
    Ok(show(&mut host))
}

/// Changes of the journal with `LEG` and `TICK`, each a byte's place and its value, and what is shown then.
const FILES: [(&[(usize, u8)], Result<Shown, Refusal>); 8] = [
    (
        &[],
        Ok(Shown {
            time: 5,
            ticks: 1,
            target: 9,
            gone: 2,
            ..BEGUN
        }),
    ),
    // The gate of the tick is shut, and that of the leg.
    (&[(4128, 0)], Ok(Shown { target: 9, ..BEGUN })),
    (&[(4096, 0)], Ok(BEGUN)),
    (&[(0, 0)], Err(Refusal::NotStarted)),
    // The header, the only entry and the last one are damaged.
    (
        &[(1, 0)],
        Err(Refusal::Damaged(PageName { file: 2, page: 0 })),
    ),
    (
        &[(4097, b'Q'), (4128, 0)],
        Err(Refusal::Damaged(PageName {
            file: 2,
            page: 4096,
        })),
    ),
    (
        &[(4097, b'Q')],
        Err(Refusal::Damaged(PageName {
            file: 2,
            page: 4096,
        })),
    ),
    (
        &[(4136, 2)],
        Err(Refusal::Damaged(PageName {
            file: 2,
            page: 4128,
        })),
    ),
];

#[test]
fn shows_what_a_journal_tells(rt: HostRuntime) -> Result<(), Fail> {
    for (changes, want) in &FILES {
        let mut bytes = journal_bytes();
        for (place, value) in *changes {
            if *place < 8192 {
                bytes[*place] = *value;
            }
        }
        assert_eq!(rt; shown_of(rt.alloc(), &bytes)?, *want, "{changes:?}");
    }
    Ok(())
}

#[test]
fn shows_nothing_of_an_empty_folder(rt: HostRuntime) -> Result<(), Fail> {
    let mut host = MemoryHost::new(rt.alloc());
    assert_eq!(rt; show(&mut host), Err(Refusal::NotStarted));
    Ok(())
}

#[test]
fn each_failing_call_is_told(rt: HostRuntime) -> Result<(), Fail> {
    let mut host = MemoryHost::new(rt.alloc());
    host.with_file(FILE, &journal_bytes())?;
    let told = show(&mut host);
    assert!(rt; told.is_ok());
    let calls = host.calls();
    for passed in 0..calls {
        let faults = host.faults();
        host.fuse(passed);
        assert_eq!(rt; show(&mut host), Err(Refusal::Device), "after {passed}");
        assert!(rt; host.faults() > faults);
    }
    Ok(())
}
