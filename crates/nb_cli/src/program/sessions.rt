//! The sessions of runs over a host in memory, from `start` on: what they say, what they leave in the files,
//! and how they go on behind faults and crashes.

use super::*;
use nb_host::{MemoryHost, Outcome};
use std::process::Abort;
use std::test::Fail;

const PARAMS: u64 = 0;

const INIT: u64 = 1;

const JOURNAL: u64 = 2;

/// The files of the snapshots after so many ticks.
const AFTER_1: u64 = 17;

const AFTER_2: u64 = 18;

const AFTER_3: u64 = 19;

const AFTER_5: u64 = 21;

const AFTER_100: u64 = 116;

const AFTER_200: u64 = 216;

/// The parameters of each folder, where it isn't given others.
const TEXT: &[u8] =
    b"grav = 1000000000\ntheta_num = 1\ntheta_den = 2\nsoft = 1\nleaf = 8\nevery = 100\n";

/// The same with a snapshot after each tick.
const EACH_TICK: &[u8] =
    b"grav = 1000000000\ntheta_num = 1\ntheta_den = 2\nsoft = 1\nleaf = 8\nevery = 1\n";

/// The snapshot of no bodies at a time, spelled by hand.
macro_rules! no_bodies {
    ($time:literal) => {
        [
            0x46, 0x4e, 0x42, 0x53, 0x4e, 0x41, 0x50, 0x31, 0, 0, 0, 0, 0, 0, 0, 0, //
            $time, 0, 0, 0, 0, 0, 0, 0, 0, 0, 0, 0, 0, 0, 0, 0,
        ]
    };
}

/// The snapshot of one body of mass 3 and velocity (1, 0, 0) with this id, at a time and at (x, 5, 5).
macro_rules! one_body {
    ($id:literal, $time:literal, $x:literal) => {
        [
            0x46, 0x4e, 0x42, 0x53, 0x4e, 0x41, 0x50, 0x31, 1, 0, 0, 0, 0, 0, 0, 0, //
            $time, 0, 0, 0, 0, 0, 0, 0, 0, 0, 0, 0, 0, 0, 0, 0, //
            $id, 0, 0, 0, 0, 0, 0, 0, 3, 0, 0, 0, 0, 0, 0, 0, //
            $x, 0, 0, 0, 0, 0, 0, 0, 5, 0, 0, 0, 0, 0, 0, 0, //
            5, 0, 0, 0, 0, 0, 0, 0, 1, 0, 0, 0, 0, 0, 0, 0, //
            0, 0, 0, 0, 0, 0, 0, 0, 0, 0, 0, 0, 0, 0, 0, 0,
        ]
    };
}

const NO_BODIES: [u8; 32] = no_bodies!(0);

/// Body 7 at the start, at (5, 5, 5).
const ONE_BODY: [u8; 96] = one_body!(7, 0, 5);

/// Body 1 of mass 1 at (2^39, 2^39, 2^39) and body 2 of mass 1000, 1000 box units further on x, at rest.
const TWO_BODIES: [u8; 160] = [
    0x46, 0x4e, 0x42, 0x53, 0x4e, 0x41, 0x50, 0x31, 2, 0, 0, 0, 0, 0, 0, 0, //
    0, 0, 0, 0, 0, 0, 0, 0, 0, 0, 0, 0, 0, 0, 0, 0, //
    1, 0, 0, 0, 0, 0, 0, 0, 1, 0, 0, 0, 0, 0, 0, 0, //
    0, 0, 0, 0, 0x80, 0, 0, 0, 0, 0, 0, 0, 0x80, 0, 0, 0, //
    0, 0, 0, 0, 0x80, 0, 0, 0, 0, 0, 0, 0, 0, 0, 0, 0, //
    0, 0, 0, 0, 0, 0, 0, 0, 0, 0, 0, 0, 0, 0, 0, 0, //
    2, 0, 0, 0, 0, 0, 0, 0, 0xe8, 0x03, 0, 0, 0, 0, 0, 0, //
    0xe8, 0x03, 0, 0, 0x80, 0, 0, 0, 0, 0, 0, 0, 0x80, 0, 0, 0, //
    0, 0, 0, 0, 0x80, 0, 0, 0, 0, 0, 0, 0, 0, 0, 0, 0, //
    0, 0, 0, 0, 0, 0, 0, 0, 0, 0, 0, 0, 0, 0, 0, 0,
];

/// The same at time 1: on x body 1 is at 549756813887, with the velocity 999998, and body 2 at 549755813889,
/// with the velocity -999.
const TWO_BODIES_LATER: [u8; 160] = [
    0x46, 0x4e, 0x42, 0x53, 0x4e, 0x41, 0x50, 0x31, 2, 0, 0, 0, 0, 0, 0, 0, //
    1, 0, 0, 0, 0, 0, 0, 0, 0, 0, 0, 0, 0, 0, 0, 0, //
    1, 0, 0, 0, 0, 0, 0, 0, 1, 0, 0, 0, 0, 0, 0, 0, //
    0x3f, 0x42, 0x0f, 0, 0x80, 0, 0, 0, 0, 0, 0, 0, 0x80, 0, 0, 0, //
    0, 0, 0, 0, 0x80, 0, 0, 0, 0x3e, 0x42, 0x0f, 0, 0, 0, 0, 0, //
    0, 0, 0, 0, 0, 0, 0, 0, 0, 0, 0, 0, 0, 0, 0, 0, //
    2, 0, 0, 0, 0, 0, 0, 0, 0xe8, 0x03, 0, 0, 0, 0, 0, 0, //
    0x01, 0, 0, 0, 0x80, 0, 0, 0, 0, 0, 0, 0, 0x80, 0, 0, 0, //
    0, 0, 0, 0, 0x80, 0, 0, 0, 0x19, 0xfc, 0xff, 0xff, 0xff, 0xff, 0xff, 0xff, //
    0, 0, 0, 0, 0, 0, 0, 0, 0, 0, 0, 0, 0, 0, 0, 0,
];

/// A snapshot of one body behind a gate that is shut, each other byte of which a crash has filled with `F`.
const UNFINISHED: [u8; 96] = [
    0, 0x46, 0x46, 0x46, 0x46, 0x46, 0x46, 0x46, 0x46, 0x46, 0x46, 0x46, 0x46, 0x46, 0x46, 0x46, //
    0x46, 0x46, 0x46, 0x46, 0x46, 0x46, 0x46, 0x46, 0x46, 0x46, 0x46, 0x46, 0x46, 0x46, 0x46, 0x46, //
    0x46, 0x46, 0x46, 0x46, 0x46, 0x46, 0x46, 0x46, 0x46, 0x46, 0x46, 0x46, 0x46, 0x46, 0x46, 0x46, //
    0x46, 0x46, 0x46, 0x46, 0x46, 0x46, 0x46, 0x46, 0x46, 0x46, 0x46, 0x46, 0x46, 0x46, 0x46, 0x46, //
    0x46, 0x46, 0x46, 0x46, 0x46, 0x46, 0x46, 0x46, 0x46, 0x46, 0x46, 0x46, 0x46, 0x46, 0x46, 0x46, //
    0x46, 0x46, 0x46, 0x46, 0x46, 0x46, 0x46, 0x46, 0x46, 0x46, 0x46, 0x46, 0x46, 0x46, 0x46, 0x46,
];

/// As long as a page, and each byte is the gate of a journal that is started.
const GATES: [u8; 4096] = [0x53; 4096];

/// What `show` says of body 7 when its run is started.
const STARTED: &[u8] = b"folder time 0 ticks 0 target 0 bodies 1 out 0\n\
    grav = 1000000000\ntheta_num = 1\ntheta_den = 2\nsoft = 1\nleaf = 8\nevery = 100\nedge = open\n";

/// What it says when tick 126 of a leg to time 200 is done.
const TICK_126: &[u8] = b"folder time 126 ticks 126 target 200 bodies 1 out 0\n\
    grav = 1000000000\ntheta_num = 1\ntheta_den = 2\nsoft = 1\nleaf = 8\nevery = 100\nedge = open\n";

/// What it says one tick later.
const TICK_127: &[u8] = b"folder time 127 ticks 127 target 200 bodies 1 out 0\n\
    grav = 1000000000\ntheta_num = 1\ntheta_den = 2\nsoft = 1\nleaf = 8\nevery = 100\nedge = open\n";

/// What happens to a folder, and what it is to be.
#[derive(Clone, Copy)]
enum Step {
    /// A file is given these bytes.
    Give(u64, &'static [u8]),
    /// A byte of a file becomes this one.
    Spoil(u64, usize, u8),
    /// The host call with this number fails, counted from here on.
    Fail(u64),
    /// So many host calls pass from here on, and none after them.
    Fuse(u64),
    /// A crash.
    Crash(Outcome),
    /// The words are run: the status, and what is said on Out and on Err.
    Run(&'static [&'static str], u8, &'static [u8], &'static [u8]),
    /// The words are run: the status, and the end of what was said on Out.
    Ends(&'static [&'static str], u8, &'static [u8]),
    /// The words are run, and done with this text on Out, and leave the journal as it was.
    Idle(&'static [&'static str], &'static [u8]),
    /// A file has these bytes.
    Reads(u64, &'static [u8]),
}

/// An initial snapshot, and what happens in its folder.
type Case = (&'static [u8], &'static [Step]);

/// A folder with this initial snapshot.
fn folder(alloc: Global, init: &[u8]) -> Result<MemoryHost, Fail> {
    let mut host = MemoryHost::new(alloc);
    host.with_file(PARAMS, TEXT)?;
    host.with_file(INIT, init)?;
    Ok(host)
}

/// Runs the words, and tells the status alone.
fn status_of(alloc: Global, words: &[&str], host: &mut MemoryHost) -> u8 {
    nbody(alloc, words, host)
}

/// Runs the words, and looks at the status and at what they say.
fn check_run(
    rt: &impl Abort,
    alloc: Global,
    host: &mut MemoryHost,
    words: &[&str],
    status: u8,
    out: &[u8],
    err: &[u8],
) -> Result<(), Fail> {
    let said = host.said(Channel::Out).len();
    let complained = host.said(Channel::Err).len();
    let found = status_of(alloc, words, host);
    let now_said = host.said(Channel::Out).get(said..);
    let now_complained = host.said(Channel::Err).get(complained..);
    assert_eq!(rt;
        (found, now_said, now_complained),
        (status, Some(out), Some(err)),
        "{words:?}"
    );
    Ok(())
}

/// Runs the words, and looks at the status and at the end of what was said.
fn check_ends(
    rt: &impl Abort,
    alloc: Global,
    host: &mut MemoryHost,
    words: &[&str],
    status: u8,
    end: &[u8],
) -> Result<(), Fail> {
    let found = status_of(alloc, words, host);
    let said = host.said(Channel::Out);
    let from = said.len().saturating_sub(end.len());
    assert_eq!(rt; (found, said.get(from..)), (status, Some(end)), "{words:?}");
    Ok(())
}

/// Runs the words, which are done and leave the journal as it was.
fn check_idle(
    rt: &impl Abort,
    alloc: Global,
    host: &mut MemoryHost,
    words: &[&str],
    out: &[u8],
) -> Result<(), Fail> {
    let journal = Vec::from_slice(alloc, host.bytes(JOURNAL))?;
    check_run(rt, alloc, host, words, 0, out, b"")?;
    assert_eq!(rt; host.bytes(JOURNAL), journal.as_slice());
    Ok(())
}

/// Makes a byte of a file this one.
fn spoil(
    alloc: Global,
    host: &mut MemoryHost,
    file: u64,
    offset: usize,
    byte: u8,
) -> Result<(), Fail> {
    let mut bytes = Vec::from_slice(alloc, host.bytes(file))?;
    if let Some(old) = bytes.get_mut(offset) {
        *old = byte;
    }
    host.with_file(file, &bytes)?;
    Ok(())
}

/// Takes one step, and looks whether it is as it is to be.
fn take(rt: &impl Abort, alloc: Global, host: &mut MemoryHost, step: Step) -> Result<(), Fail> {
    match step {
        Step::Give(file, bytes) => host.with_file(file, bytes)?,
        Step::Spoil(file, offset, byte) => spoil(alloc, host, file, offset, byte)?,
        Step::Fail(call) => host.fail_at(&[call])?,
        Step::Fuse(calls) => host.fuse(calls),
        Step::Crash(outcome) => host.crash(outcome)?,
        Step::Run(words, status, out, err) => {
            check_run(rt, alloc, host, words, status, out, err)?
        }
        Step::Ends(words, status, end) => check_ends(rt, alloc, host, words, status, end)?,
        Step::Idle(words, out) => check_idle(rt, alloc, host, words, out)?,
        Step::Reads(file, bytes) => assert_eq!(rt; host.bytes(file), bytes, "file {file}"),
    }
    Ok(())
}

/// Takes the steps of each case, in a folder of its own.
fn play(rt: &impl Abort, alloc: Global, cases: &[Case]) -> Result<(), Fail> {
    for (init, steps) in cases {
        let mut host = folder(alloc, init)?;
        for step in *steps {
            take(rt, alloc, &mut host, *step)?;
        }
    }
    Ok(())
}

/// Runs that nothing stops.
const WHOLE: &[Case] = &[
    (
        &NO_BODIES,
        &[
            Step::Run(&["start"], 0, b"started bodies 0 time 0\n", b""),
            Step::Run(
                &["go", "2"],
                0,
                b"tick 1 time 1 out 0\ntick 2 time 2 out 0\ndone time 2 ticks 2 out 0\n",
                b"",
            ),
            Step::Reads(AFTER_1, b""),
            Step::Reads(AFTER_2, &no_bodies!(2)),
        ],
    ),
    // There and back.
    (
        &TWO_BODIES,
        &[
            Step::Run(&["start"], 0, b"started bodies 2 time 0\n", b""),
            Step::Run(
                &["go", "1"],
                0,
                b"tick 1 time 1 out 0\ndone time 1 ticks 1 out 0\n",
                b"",
            ),
            Step::Run(
                &["go", "0"],
                0,
                b"tick 2 time 0 out 0\ndone time 0 ticks 2 out 0\n",
                b"",
            ),
            Step::Reads(INIT, &TWO_BODIES),
            Step::Reads(AFTER_1, &TWO_BODIES_LATER),
            Step::Reads(AFTER_2, &TWO_BODIES),
        ],
    ),
    // The run is where it is to go.
    (
        &ONE_BODY,
        &[
            Step::Run(&["start"], 0, b"started bodies 1 time 0\n", b""),
            Step::Idle(&["go", "0"], b"done time 0 ticks 0 out 0\n"),
            Step::Idle(&["resume"], b"done time 0 ticks 0 out 0\n"),
            Step::Idle(&["show"], STARTED),
        ],
    ),
    // Snapshots of another run under the names of this one's: one is written anew, the other is emptied.
    (
        &ONE_BODY,
        &[
            Step::Give(PARAMS, EACH_TICK),
            Step::Give(AFTER_1, &one_body!(8, 0, 9)),
            Step::Run(&["start"], 0, b"started bodies 1 time 0\n", b""),
            Step::Run(
                &["go", "1"],
                0,
                b"tick 1 time 1 out 0\ndone time 1 ticks 1 out 0\n",
                b"",
            ),
            Step::Reads(AFTER_1, &one_body!(7, 1, 6)),
        ],
    ),
    (
        &ONE_BODY,
        &[
            Step::Give(AFTER_3, &one_body!(8, 0, 9)),
            Step::Run(&["start"], 0, b"started bodies 1 time 0\n", b""),
            Step::Ends(
                &["go", "5"],
                0,
                b"tick 5 time 5 out 0\ndone time 5 ticks 5 out 0\n",
            ),
            Step::Reads(AFTER_3, b""),
            Step::Reads(AFTER_5, &one_body!(7, 5, 10)),
        ],
    ),
];

#[test]
fn whole_runs(rt: HostRuntime) -> Result<(), Fail> {
    play(&rt, rt.alloc(), WHOLE)
}

/// Sessions that are refused.
const REFUSED: &[Case] = &[
    (
        b"",
        &[
            Step::Give(PARAMS, b""),
            Step::Run(&["show"], 5, b"", b"nbody: not started\n"),
            Step::Run(&["go", "1"], 5, b"", b"nbody: not started\n"),
            Step::Run(&["resume"], 5, b"", b"nbody: not started\n"),
            Step::Reads(JOURNAL, b""),
        ],
    ),
    (
        &ONE_BODY,
        &[
            Step::Run(&["start"], 0, b"started bodies 1 time 0\n", b""),
            Step::Run(&["start"], 6, b"", b"nbody: already started\n"),
            Step::Run(
                &["go", "1099511627777"],
                8,
                b"",
                b"nbody: 1099511627777 ticks are more than 2^40\n",
            ),
            Step::Idle(&["show"], STARTED),
        ],
    ),
    (
        &ONE_BODY,
        &[
            Step::Run(&["start"], 0, b"started bodies 1 time 0\n", b""),
            Step::Ends(&["go", "1"], 0, b"done time 1 ticks 1 out 0\n"),
            Step::Spoil(JOURNAL, 4097, b'Q'),
            Step::Run(&["show"], 12, b"", b"nbody: damaged file 2 at 4096\n"),
            Step::Run(&["go", "2"], 12, b"", b"nbody: damaged file 2 at 4096\n"),
            // half of the line can be said, and the status stays
            Step::Fail(5),
            Step::Run(&["show"], 12, b"", b"nbody: damaged "),
        ],
    ),
];

#[test]
fn refused_sessions(rt: HostRuntime) -> Result<(), Fail> {
    play(&rt, rt.alloc(), REFUSED)
}

/// Runs that a crash or a fault stops, and that go on behind it. The line of tick k of a leg is said by call
/// 14 * k + 10 of its session, where no snapshot was due before.
const STOPPED: &[Case] = &[
    // behind the line of tick 3
    (
        &ONE_BODY,
        &[
            Step::Run(&["start"], 0, b"started bodies 1 time 0\n", b""),
            Step::Fuse(52),
            Step::Run(
                &["go", "5"],
                11,
                b"tick 1 time 1 out 0\ntick 2 time 2 out 0\ntick 3 time 3 out 0\n",
                b"",
            ),
            Step::Crash(Outcome::Kept),
            Step::Run(
                &["go", "9"],
                7,
                b"",
                b"nbody: the leg to 5 is open at time 3\n",
            ),
            Step::Run(
                &["resume"],
                0,
                b"tick 4 time 4 out 0\ntick 5 time 5 out 0\ndone time 5 ticks 5 out 0\n",
                b"",
            ),
            Step::Reads(AFTER_5, &one_body!(7, 5, 10)),
        ],
    ),
    // The sync before the gate of tick 2 fails.
    (
        &TWO_BODIES,
        &[
            Step::Run(&["start"], 0, b"started bodies 2 time 0\n", b""),
            Step::Fail(35),
            Step::Run(
                &["go", "3"],
                11,
                b"tick 1 time 1 out 0\n",
                b"nbody: a device fault\n",
            ),
            Step::Run(
                &["resume"],
                0,
                b"tick 2 time 2 out 0\ntick 3 time 3 out 0\ndone time 3 ticks 3 out 0\n",
                b"",
            ),
        ],
    ),
    // while `start` opens the gate of a journal whose file held gates
    (
        &ONE_BODY,
        &[
            Step::Give(JOURNAL, &GATES),
            Step::Run(&["start"], 0, b"started bodies 1 time 0\n", b""),
            Step::Run(&["show"], 0, STARTED, b""),
        ],
    ),
    (
        &ONE_BODY,
        &[
            Step::Give(JOURNAL, &GATES),
            Step::Fuse(19),
            Step::Run(&["start"], 11, b"", b""),
            Step::Crash(Outcome::Filled(0x53)),
            Step::Run(&["show"], 0, STARTED, b""),
        ],
    ),
    (
        &ONE_BODY,
        &[
            Step::Give(JOURNAL, &GATES),
            Step::Fuse(19),
            Step::Run(&["start"], 11, b"", b""),
            Step::Crash(Outcome::Lost),
            Step::Run(&["show"], 5, b"", b"nbody: not started\n"),
            Step::Run(&["start"], 0, b"started bodies 1 time 0\n", b""),
            Step::Run(&["show"], 0, STARTED, b""),
        ],
    ),
    // while the body of a snapshot is written
    (
        &ONE_BODY,
        &[
            Step::Run(&["start"], 0, b"started bodies 1 time 0\n", b""),
            Step::Fuse(31),
            Step::Run(&["go", "1"], 11, b"tick 1 time 1 out 0\n", b""),
            Step::Crash(Outcome::Filled(0x46)),
            Step::Reads(AFTER_1, &UNFINISHED),
            Step::Run(&["resume"], 0, b"done time 1 ticks 1 out 0\n", b""),
            Step::Reads(AFTER_1, &one_body!(7, 1, 6)),
        ],
    ),
];

#[test]
fn stopped_runs(rt: HostRuntime) -> Result<(), Fail> {
    play(&rt, rt.alloc(), STOPPED)
}

/// A leg of 200 ticks, which a crash stops while it opens the gate of tick 127, the last entry of its page:
/// that is call 1798, the thirteenth behind the line of tick 126.
const LONG: &[Case] = &[
    (
        &ONE_BODY,
        &[
            Step::Run(&["start"], 0, b"started bodies 1 time 0\n", b""),
            Step::Fuse(1797),
            Step::Ends(&["go", "200"], 11, b"\ntick 126 time 126 out 0\n"),
            Step::Crash(Outcome::Filled(0x47)),
            Step::Run(&["show"], 0, TICK_127, b""),
            Step::Ends(
                &["resume"],
                0,
                b"\ntick 200 time 200 out 0\ndone time 200 ticks 200 out 0\n",
            ),
            Step::Reads(AFTER_100, &one_body!(7, 100, 105)),
            Step::Reads(AFTER_200, &one_body!(7, 200, 205)),
        ],
    ),
    (
        &ONE_BODY,
        &[
            Step::Run(&["start"], 0, b"started bodies 1 time 0\n", b""),
            Step::Fuse(1797),
            Step::Ends(&["go", "200"], 11, b"\ntick 126 time 126 out 0\n"),
            Step::Crash(Outcome::Lost),
            Step::Run(&["show"], 0, TICK_126, b""),
            Step::Ends(
                &["resume"],
                0,
                b"\ntick 200 time 200 out 0\ndone time 200 ticks 200 out 0\n",
            ),
            Step::Reads(AFTER_100, &one_body!(7, 100, 105)),
            Step::Reads(AFTER_200, &one_body!(7, 200, 205)),
        ],
    ),
];

#[test]
fn a_long_leg(rt: HostRuntime) -> Result<(), Fail> {
    play(&rt, rt.alloc(), LONG)
}

/// Runs `start` on these parameters and this initial snapshot, where it is refused so and begins no journal.
fn check_no_start(
    rt: &impl Abort,
    alloc: Global,
    text: &[u8],
    init: &[u8],
    status: u8,
    line: &[u8],
) -> Result<(), Fail> {
    let mut host = folder(alloc, init)?;
    host.with_file(PARAMS, text)?;
    check_run(rt, alloc, &mut host, &["start"], status, b"", line)?;
    assert_eq!(rt; host.bytes(JOURNAL), b"".as_slice());
    Ok(())
}

#[test]
fn no_start(rt: HostRuntime) -> Result<(), Fail> {
    let mut shut = ONE_BODY;
    shut[0] = 0;
    let mut too_fast = ONE_BODY;
    too_fast[72] = 0;
    too_fast[79] = 0x20;
    let mut same_id = TWO_BODIES;
    same_id[32] = 4;
    same_id[96] = 4;
    let long = vec![in rt.alloc(); b'#'; 65537]?;
    let table = [
        (
            TEXT,
            b"".as_slice(),
            3,
            b"nbody: snapshot: short\n".as_slice(),
        ),
        (TEXT, &shut, 3, b"nbody: snapshot: unfinished\n"),
        (TEXT, &ONE_BODY[..95], 3, b"nbody: snapshot: length\n"),
        (TEXT, &same_id, 3, b"nbody: snapshot: id order at body 1\n"),
        (TEXT, &too_fast, 3, b"nbody: snapshot: speed at body 0\n"),
        (
            b"grav = 1000000000\ntheta_num = 1\ntheta_den = 2\nsoft = 1\nleaf = 8\n",
            &ONE_BODY,
            2,
            b"nbody: params: every is missing\n",
        ),
        (
            b"grav = 1\ntheta_num = 1\ngrav = 2\nsoft = 1\nleaf = 8\nevery = 100\n",
            &ONE_BODY,
            2,
            b"nbody: params: line 3 repeats a name\n",
        ),
        (
            b"grav = 1\ntheta_num = 1\ntheta_den = 2\nsoft = 1\nleaf = 33\nevery = 100\n",
            &ONE_BODY,
            2,
            b"nbody: params: line 5 is out of range\n",
        ),
        (
            b"grav = 1\ntheta = 1\ntheta_den = 2\nsoft = 1\nleaf = 8\nevery = 100\n",
            &ONE_BODY,
            2,
            b"nbody: params: line 2\n",
        ),
        (
            &long,
            &ONE_BODY,
            2,
            b"nbody: params: longer than 65536 bytes\n",
        ),
        // three times the greatest constant of gravity
        (
            b"grav = 1152921504606846975\ntheta_num = 1\ntheta_den = 2\nsoft = 1\nleaf = 8\nevery = 1\n",
            &ONE_BODY,
            4,
            b"nbody: grav 1152921504606846975 times mass 3 is not below 2^60\n",
        ),
    ];
    for (text, init, status, line) in table {
        check_no_start(&rt, rt.alloc(), text, init, status, line)?;
    }
    Ok(())
}

/// Starts the run of the two bodies, and leads it there and back, as far as the host's calls pass.
fn there_and_back(alloc: Global, host: &mut MemoryHost) {
    let _ = status_of(alloc, &["start", "--pages", "4"], host);
    let _ = status_of(alloc, &["go", "1", "--pages", "4", "--walks", "1"], host);
    let _ = status_of(alloc, &["go", "0", "--pages", "4", "--walks", "1"], host);
}

/// Leads the run on, there and back, from wherever it is. The answer is 0 where all of that is done.
fn go_on(alloc: Global, host: &mut MemoryHost) -> u8 {
    let begun = status_of(alloc, &["show"], host) == 0;
    let mut status = if begun {
        status_of(alloc, &["resume", "--pages", "4", "--walks", "1"], host)
    } else {
        status_of(alloc, &["start", "--pages", "4"], host)
    };
    if host.bytes(AFTER_1).is_empty() {
        status |= status_of(alloc, &["go", "1", "--pages", "4", "--walks", "1"], host);
    }
    if host.bytes(AFTER_2).is_empty() {
        status |= status_of(alloc, &["go", "0", "--pages", "4", "--walks", "1"], host);
    }
    status
}

/// So many host calls pass, and then comes a crash. The run goes on behind it, and its snapshots become what
/// they are without a crash.
fn check_stop(rt: &impl Abort, alloc: Global, calls: u64, outcome: Outcome) -> Result<(), Fail> {
    let mut host = folder(alloc, &TWO_BODIES)?;
    host.fuse(calls);
    there_and_back(alloc, &mut host);
    host.crash(outcome)?;
    let status = go_on(alloc, &mut host);
    assert_eq!(rt;
        (status, host.bytes(AFTER_1), host.bytes(AFTER_2)),
        (0, TWO_BODIES_LATER.as_slice(), TWO_BODIES.as_slice()),
        "{calls} {outcome:?}"
    );
    Ok(())
}

/// There and back is stopped at each call of the host, and each time a crash leaves this.
fn check_stops(rt: &impl Abort, alloc: Global, outcome: Outcome) -> Result<(), Fail> {
    let mut host = folder(alloc, &TWO_BODIES)?;
    there_and_back(alloc, &mut host);
    let calls = host.calls();
    for passed in 0..calls {
        check_stop(rt, alloc, passed, outcome)?;
    }
    Ok(())
}

#[test]
fn a_stop_that_leaves_what_was_written(rt: HostRuntime) -> Result<(), Fail> {
    check_stops(&rt, rt.alloc(), Outcome::Kept)
}

#[test]
fn a_stop_that_leaves_what_was_synced(rt: HostRuntime) -> Result<(), Fail> {
    check_stops(&rt, rt.alloc(), Outcome::Lost)
}

#[test]
fn a_stop_that_leaves_zeros(rt: HostRuntime) -> Result<(), Fail> {
    check_stops(&rt, rt.alloc(), Outcome::Filled(0))
}

#[test]
fn a_stop_that_leaves_gates_of_snapshots(rt: HostRuntime) -> Result<(), Fail> {
    check_stops(&rt, rt.alloc(), Outcome::Filled(0x46))
}

#[test]
fn a_stop_that_leaves_gates_of_ticks(rt: HostRuntime) -> Result<(), Fail> {
    check_stops(&rt, rt.alloc(), Outcome::Filled(0x47))
}

#[test]
fn a_stop_that_leaves_gates_of_starts(rt: HostRuntime) -> Result<(), Fail> {
    check_stops(&rt, rt.alloc(), Outcome::Filled(0x53))
}
