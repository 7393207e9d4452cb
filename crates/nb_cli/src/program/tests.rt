//! What the program does over a host in memory: its bytes, its lines and its statuses.

use super::*;
use nb_engine::Done;
use nb_host::MemoryHost;
use std::alloc::AllocError;
use std::process::Abort;
use std::test::Fail;

const PARAMS: u64 = 0;

const INIT: u64 = 1;

const JOURNAL: u64 = 2;

const ONCE: u64 = 8;

/// The middle of the box on an axis, 2^39.
const H: u64 = 549_755_813_888;

/// Parameters for all tests that don't name others.
const TEXT: &[u8] =
    b"grav = 1000000000\ntheta_num = 1\ntheta_den = 2\nsoft = 1\nleaf = 8\nevery = 100\n";

/// The same in a box that wraps.
const WRAPPED: &[u8] =
    b"grav = 1000000000\ntheta_num = 1\ntheta_den = 2\nsoft = 1\nleaf = 8\nevery = 100\nedge = wrap\n";

/// The snapshot of no bodies at time 0.
static EMPTY: [u8; 32] = [
    0x46, 0x4e, 0x42, 0x53, 0x4e, 0x41, 0x50, 0x31, 0, 0, 0, 0, 0, 0, 0, 0, //
    0, 0, 0, 0, 0, 0, 0, 0, 0, 0, 0, 0, 0, 0, 0, 0,
];

/// Body 7 of mass 3 at (5, 5, 5), of velocity (1, 0, 0), at time 0.
static ONE_BODY: [u8; 96] = [
    0x46, 0x4e, 0x42, 0x53, 0x4e, 0x41, 0x50, 0x31, 1, 0, 0, 0, 0, 0, 0, 0, //
    0, 0, 0, 0, 0, 0, 0, 0, 0, 0, 0, 0, 0, 0, 0, 0, //
    7, 0, 0, 0, 0, 0, 0, 0, 3, 0, 0, 0, 0, 0, 0, 0, //
    5, 0, 0, 0, 0, 0, 0, 0, 5, 0, 0, 0, 0, 0, 0, 0, //
    5, 0, 0, 0, 0, 0, 0, 0, 1, 0, 0, 0, 0, 0, 0, 0, //
    0, 0, 0, 0, 0, 0, 0, 0, 0, 0, 0, 0, 0, 0, 0, 0,
];

/// The same body one tick later, at (6, 5, 5).
static ONE_BODY_LATER: [u8; 96] = [
    0x46, 0x4e, 0x42, 0x53, 0x4e, 0x41, 0x50, 0x31, 1, 0, 0, 0, 0, 0, 0, 0, //
    1, 0, 0, 0, 0, 0, 0, 0, 0, 0, 0, 0, 0, 0, 0, 0, //
    7, 0, 0, 0, 0, 0, 0, 0, 3, 0, 0, 0, 0, 0, 0, 0, //
    6, 0, 0, 0, 0, 0, 0, 0, 5, 0, 0, 0, 0, 0, 0, 0, //
    5, 0, 0, 0, 0, 0, 0, 0, 1, 0, 0, 0, 0, 0, 0, 0, //
    0, 0, 0, 0, 0, 0, 0, 0, 0, 0, 0, 0, 0, 0, 0, 0,
];

/// The header of a snapshot, spelled by hand.
fn header(alloc: Global, count: u64, time: u64) -> Result<Vec<u8>, AllocError> {
    let mut bytes = Vec::from_slice(alloc, b"FNBSNAP1")?;
    bytes.extend_from_slice(&count.to_le_bytes())?;
    bytes.extend_from_slice(&time.to_le_bytes())?;
    bytes.extend_from_slice(&[0; 8])?;
    Ok(bytes)
}

/// Spells a record at the end of the bytes: id, mass, mark, position, velocity.
fn spell(
    bytes: &mut Vec<u8>,
    id: u64,
    mass: u32,
    out: u32,
    at: [u64; 3],
    v: [i64; 3],
) -> Result<(), AllocError> {
    bytes.extend_from_slice(&id.to_le_bytes())?;
    bytes.extend_from_slice(&mass.to_le_bytes())?;
    bytes.extend_from_slice(&out.to_le_bytes())?;
    for axis in at {
        bytes.extend_from_slice(&axis.to_le_bytes())?;
    }
    for axis in v {
        bytes.extend_from_slice(&axis.to_le_bytes())?;
    }
    Ok(())
}

/// A body's row: id, mass, mark, position, velocity.
type Row = (u64, u32, u32, [u64; 3], [i64; 3]);

/// The snapshot of these bodies at this time, spelled by hand.
fn snapshot(alloc: Global, time: u64, rows: &[Row]) -> Result<Vec<u8>, AllocError> {
    let mut bytes = header(alloc, rows.len() as u64, time)?;
    for (id, mass, out, at, v) in rows {
        spell(&mut bytes, *id, *mass, *out, *at, *v)?;
    }
    Ok(bytes)
}

/// A host with this initial snapshot, and something else in the file of `once`.
fn host_of(alloc: Global, init: &[u8]) -> Result<MemoryHost, Fail> {
    let mut host = MemoryHost::new(alloc);
    host.with_file(PARAMS, TEXT)?;
    host.with_file(INIT, init)?;
    host.with_file(ONCE, b"old")?;
    Ok(host)
}

/// Runs the words, and tells the status alone.
fn run_words(alloc: Global, words: &[&str], host: &mut MemoryHost) -> u8 {
    nbody(alloc, words, host)
}

/// What the words did by these parameters on this snapshot, where the host calls with these numbers fail: the
/// status, and the host.
fn after(
    alloc: Global,
    text: &[u8],
    init: &[u8],
    failing: &[u64],
    words: &[&str],
) -> Result<(u8, MemoryHost), Fail> {
    let mut host = host_of(alloc, init)?;
    host.with_file(PARAMS, text)?;
    host.fail_at(failing)?;
    let status = run_words(alloc, words, &mut host);
    Ok((status, host))
}

/// Runs `once` on the initial snapshot, and looks whether it is done with this line and this snapshot.
fn check_done(
    rt: &impl Abort,
    alloc: Global,
    init: &[u8],
    target: &str,
    line: &[u8],
    want: &[u8],
) -> Result<(), Fail> {
    check_done_by(rt, alloc, TEXT, init, target, line, want)
}

/// The same by these parameters.
fn check_done_by(
    rt: &impl Abort,
    alloc: Global,
    text: &[u8],
    init: &[u8],
    target: &str,
    line: &[u8],
    want: &[u8],
) -> Result<(), Fail> {
    let (status, host) = after(alloc, text, init, &[], &["once", target])?;
    assert_eq!(rt; status, 0);
    assert_eq!(rt; host.said(Channel::Out), line);
    assert_eq!(rt; host.said(Channel::Err), b"".as_slice());
    assert_eq!(rt; host.bytes(ONCE), want);
    assert_eq!(rt; host.bytes(INIT), init);
    Ok(())
}

/// Runs the words on the host, and looks whether they are refused so and leave every file as it was.
fn check_refused(
    rt: &impl Abort,
    alloc: Global,
    host: &mut MemoryHost,
    words: &[&str],
    status: u8,
    line: &[u8],
) -> Result<(), Fail> {
    let params = Vec::from_slice(alloc, host.bytes(PARAMS))?;
    let init = Vec::from_slice(alloc, host.bytes(INIT))?;
    let once = Vec::from_slice(alloc, host.bytes(ONCE))?;
    assert_eq!(rt; run_words(alloc, words, host), status);
    assert_eq!(rt; host.said(Channel::Out), b"".as_slice());
    assert_eq!(rt; host.said(Channel::Err), line);
    assert_eq!(rt; host.bytes(PARAMS), params.as_slice());
    assert_eq!(rt; host.bytes(INIT), init.as_slice());
    assert_eq!(rt; host.bytes(ONCE), once.as_slice());
    Ok(())
}

#[test]
fn no_bodies(rt: HostRuntime) -> Result<(), Fail> {
    let line = b"once time 0 ticks 0 out 0\n";
    check_done(&rt, rt.alloc(), &EMPTY, "0", line, &EMPTY)
}

#[test]
fn one_body(rt: HostRuntime) -> Result<(), Fail> {
    let line = b"once time 1 ticks 1 out 0\n";
    check_done(&rt, rt.alloc(), &ONE_BODY, "1", line, &ONE_BODY_LATER)?;
    // A sync, two calls for the parameters, three for the snapshot, a cut and a sync, five to begin the
    // file of `once`, one for its body, three to close it, and its line: no call more, and none less.
    let (status, host) = after(rt.alloc(), TEXT, &ONE_BODY, &[], &["once", "1"])?;
    assert_eq!(rt; (status, host.calls()), (0, 18));
    let mut host = host_of(rt.alloc(), &ONE_BODY)?;
    let done = Done {
        time: 1,
        ticks: 1,
        gone: 0,
    };
    assert_eq!(rt; once(rt.alloc(), &mut host, 1)?, done);
    let line = b"once time 0 ticks 0 out 0\n";
    check_done(&rt, rt.alloc(), &ONE_BODY, "0", line, &ONE_BODY)?;
    let line = b"once time 0 ticks 1 out 0\n";
    check_done(&rt, rt.alloc(), &ONE_BODY_LATER, "0", line, &ONE_BODY)
}

#[test]
fn two_bodies(rt: HostRuntime) -> Result<(), Fail> {
    let before = [
        (1, 1, 0, [H, H, H], [0, 0, 0]),
        (2, 1000, 0, [H + 1000, H, H], [0, 0, 0]),
    ];
    let later = [
        (1, 1, 0, [549_756_813_887, H, H], [999_998, 0, 0]),
        (2, 1000, 0, [549_755_813_889, H, H], [-999, 0, 0]),
    ];
    let init = snapshot(rt.alloc(), 0, &before)?;
    let want = snapshot(rt.alloc(), 1, &later)?;
    let fields = [
        (48, [0x3f, 0x42, 0x0f, 0, 0x80, 0, 0, 0]),
        (72, [0x3e, 0x42, 0x0f, 0, 0, 0, 0, 0]),
        (112, [0x01, 0, 0, 0, 0x80, 0, 0, 0]),
        (136, [0x19, 0xfc, 0xff, 0xff, 0xff, 0xff, 0xff, 0xff]),
    ];
    for (at, bytes) in fields {
        assert_eq!(rt; want.get(at..at + 8), Some(bytes.as_slice()));
    }
    let line = b"once time 1 ticks 1 out 0\n";
    check_done(&rt, rt.alloc(), &init, "1", line, &want)?;
    let line = b"once time 0 ticks 1 out 0\n";
    check_done(&rt, rt.alloc(), &want, "0", line, &init)
}

/// Two bodies on both sides of the border of a box that wraps.
#[test]
fn two_bodies_across_the_border(rt: HostRuntime) -> Result<(), Fail> {
    let before = [
        (1, 1, 0, [0, H, H], [0, 0, 0]),
        (2, 1000, 0, [1_099_511_626_776, H, H], [0, 0, 0]),
    ];
    let later = [
        (1, 1, 0, [1_099_510_627_777, H, H], [-999_998, 0, 0]),
        (2, 1000, 0, [1_099_511_627_775, H, H], [999, 0, 0]),
    ];
    let init = snapshot(rt.alloc(), 0, &before)?;
    let want = snapshot(rt.alloc(), 1, &later)?;
    let line = b"once time 1 ticks 1 out 0\n";
    check_done_by(&rt, rt.alloc(), WRAPPED, &init, "1", line, &want)?;
    let line = b"once time 0 ticks 1 out 0\n";
    check_done_by(&rt, rt.alloc(), WRAPPED, &want, "0", line, &init)
}

/// What becomes of body 7 in a box that wraps.
#[test]
fn one_body_across_the_border(rt: HostRuntime) -> Result<(), Fail> {
    let table = [
        ([1_099_511_627_775, 0, 0], 1, 0, [0, 0, 0]),
        ([5, 5, 5], 1_099_511_627_775, 0, [4, 5, 5]),
        // too fast
        ([5, 5, 5], 1_099_511_627_776, 1, [5, 5, 5]),
    ];
    for (from, speed, out, to) in table {
        let init = snapshot(rt.alloc(), 0, &[(7, 3, 0, from, [speed, 0, 0])])?;
        let want = snapshot(rt.alloc(), 1, &[(7, 3, out, to, [speed, 0, 0])])?;
        let (status, host) = after(rt.alloc(), WRAPPED, &init, &[], &["once", "1"])?;
        assert_eq!(rt; status, 0);
        assert_eq!(rt; host.bytes(ONCE), want.as_slice());
    }
    Ok(())
}

#[test]
fn two_bodies_in_one_place(rt: HostRuntime) -> Result<(), Fail> {
    let rows = [
        (1, 5, 0, [H, H, H], [0, 0, 0]),
        (2, 5, 0, [H, H, H], [0, 0, 0]),
    ];
    let init = snapshot(rt.alloc(), 0, &rows)?;
    let want = snapshot(rt.alloc(), 10, &rows)?;
    let line = b"once time 10 ticks 10 out 0\n";
    check_done(&rt, rt.alloc(), &init, "10", line, &want)
}

#[test]
fn leaves_the_box(rt: HostRuntime) -> Result<(), Fail> {
    let edge = (1 << 40) - 1;
    let table = [
        ([edge, 0, 0], [1, 0, 0]),
        // the greatest speed of an unescaped body
        ([0, 0, 0], [2_305_843_009_213_693_951, 0, 0]),
        ([0, 0, 0], [0, -1, 0]),
    ];
    for (at, v) in table {
        let init = snapshot(rt.alloc(), 0, &[(7, 3, 0, at, v)])?;
        let want = snapshot(rt.alloc(), 1, &[(7, 3, 1, at, v)])?;
        let line = b"once time 1 ticks 1 out 1\n";
        check_done(&rt, rt.alloc(), &init, "1", line, &want)?;
        let later = snapshot(rt.alloc(), 2, &[(7, 3, 1, at, v)])?;
        let line = b"once time 2 ticks 2 out 1\n";
        check_done(&rt, rt.alloc(), &init, "2", line, &later)?;
    }
    Ok(())
}

#[test]
fn words(rt: HostRuntime) -> Result<(), Fail> {
    let table = [
        [].as_slice(),
        &["once"],
        &["once", "-5"],
        &["once", "+5"],
        &["once", ""],
        &["once", "1 "],
        &["once", "1", "2"],
        &["go"],
        &["go", "-5"],
        &["go", "+5"],
        &["start", "1"],
        &["resume", "1"],
        &["show", "1"],
        &["shown"],
        &["1"],
        // 21 digits, and 2^64
        &["once", "000000000000000000001"],
        &["once", "18446744073709551616"],
    ];
    let line = b"nbody: the words are not a command\n";
    for words in table {
        let mut host = host_of(rt.alloc(), &ONE_BODY)?;
        check_refused(&rt, rt.alloc(), &mut host, words, 1, line)?;
    }
    // leading zeros, up to 20 digits
    let line = b"once time 1 ticks 1 out 0\n";
    check_done(
        &rt,
        rt.alloc(),
        &ONE_BODY,
        "00000000000000000001",
        line,
        &ONE_BODY_LATER,
    )
}

#[test]
fn the_greatest_time(rt: HostRuntime) -> Result<(), Fail> {
    let init = header(rt.alloc(), 0, u64::MAX)?;
    let line = b"once time 18446744073709551615 ticks 0 out 0\n";
    check_done(&rt, rt.alloc(), &init, "18446744073709551615", line, &init)
}

/// Runs `once` to a time on an initial snapshot that is refused so.
fn check_snapshot(
    rt: &impl Abort,
    alloc: Global,
    init: &[u8],
    target: &str,
    status: u8,
    line: &[u8],
) -> Result<(), Fail> {
    let mut host = host_of(alloc, init)?;
    check_refused(rt, alloc, &mut host, &["once", target], status, line)
}

#[test]
fn no_snapshot(rt: HostRuntime) -> Result<(), Fail> {
    let mut longer = Vec::from_slice(rt.alloc(), &ONE_BODY)?;
    longer.push(0)?;
    let same_id = snapshot(
        rt.alloc(),
        0,
        &[(4, 1, 0, [0; 3], [0; 3]), (4, 1, 0, [0; 3], [0; 3])],
    )?;
    let too_fast = snapshot(rt.alloc(), 0, &[(1, 1, 0, [0; 3], [1 << 61, 0, 0])])?;
    let table = [
        (b"".as_slice(), b"nbody: snapshot: short\n".as_slice()),
        (&ONE_BODY[..95], b"nbody: snapshot: length\n"),
        (&longer, b"nbody: snapshot: length\n"),
        (&same_id, b"nbody: snapshot: id order at body 1\n"),
        (&too_fast, b"nbody: snapshot: speed at body 0\n"),
    ];
    for (init, line) in table {
        check_snapshot(&rt, rt.alloc(), init, "0", 3, line)?;
    }
    // a file that isn't there
    let mut host = MemoryHost::new(rt.alloc());
    host.with_file(PARAMS, TEXT)?;
    let line = b"nbody: snapshot: short\n";
    check_refused(&rt, rt.alloc(), &mut host, &["once", "0"], 3, line)?;
    let table = [
        (0, 0, b"nbody: snapshot: unfinished\n".as_slice()),
        (7, 0x32, b"nbody: snapshot: magic\n"),
        (11, 1, b"nbody: snapshot: count\n"),
        (24, 1, b"nbody: snapshot: zeros\n"),
        (40, 0, b"nbody: snapshot: mass at body 0\n"),
        (44, 2, b"nbody: snapshot: flag at body 0\n"),
        (53, 1, b"nbody: snapshot: place at body 0\n"),
    ];
    for (place, byte, line) in table {
        assert!(rt; place < 96);
        let mut init = ONE_BODY;
        init[place] = byte;
        check_snapshot(&rt, rt.alloc(), &init, "0", 3, line)?;
    }
    Ok(())
}

/// Runs `once 1` on a parameter text that is refused so.
fn check_params(rt: &impl Abort, alloc: Global, text: &[u8], line: &[u8]) -> Result<(), Fail> {
    let mut host = host_of(alloc, &ONE_BODY)?;
    host.with_file(PARAMS, text)?;
    check_refused(rt, alloc, &mut host, &["once", "1"], 2, line)
}

#[test]
fn no_parameters(rt: HostRuntime) -> Result<(), Fail> {
    let table = [
        (
            b"grav = 1000000000\ntheta_num = 1\ntheta_den = 2\nsoft = 1\nleaf = 8\n".as_slice(),
            b"nbody: params: every is missing\n".as_slice(),
        ),
        (
            b"grav = 1\ntheta_num = 1\ngrav = 2\nsoft = 1\nleaf = 8\nevery = 100\n",
            b"nbody: params: line 3 repeats a name\n",
        ),
        (
            b"grav = 1\ntheta_num = 1\ntheta_den = 2\nsoft = 1\nleaf = 33\nevery = 100\n",
            b"nbody: params: line 5 is out of range\n",
        ),
        (
            b"grav = 1\ntheta = 1\ntheta_den = 2\nsoft = 1\nleaf = 8\nevery = 100\n",
            b"nbody: params: line 2\n",
        ),
        (b"", b"nbody: params: grav is missing\n"),
    ];
    for (text, line) in table {
        check_params(&rt, rt.alloc(), text, line)?;
    }
    let long = vec![in rt.alloc(); b'#'; 65537]?;
    let line = b"nbody: params: longer than 65536 bytes\n";
    check_params(&rt, rt.alloc(), &long, line)
}

#[test]
fn parameters_with_comments(rt: HostRuntime) -> Result<(), Fail> {
    let text = b"# of a test\r\n\tgrav\t=\t1000000000\r\ntheta_num=1\r\ntheta_den = 02\r\n\r\n\
        every = 100\r\nleaf = 8 \r\nsoft = 1";
    let (status, host) = after(rt.alloc(), text, &ONE_BODY, &[], &["once", "1"])?;
    assert_eq!(rt; status, 0);
    assert_eq!(rt; host.bytes(ONCE), ONE_BODY_LATER.as_slice());
    assert_eq!(rt; host.bytes(PARAMS), text.as_slice());
    Ok(())
}

/// Parameters by which two bodies of mass 2^31 are too heavy.
const HEAVY: &[u8] =
    b"grav = 268435456\ntheta_num = 1\ntheta_den = 2\nsoft = 1\nleaf = 8\nevery = 100\n";

/// Runs `once` on two bodies of mass 2^31, the second with this mark, which are too heavy together.
fn check_heavy(rt: &impl Abort, alloc: Global, out: u32, target: &str) -> Result<(), Fail> {
    let rows = [
        (1, 2_147_483_648, 0, [0; 3], [0; 3]),
        (2, 2_147_483_648, out, [0; 3], [0; 3]),
    ];
    let init = snapshot(alloc, 0, &rows)?;
    let mut host = host_of(alloc, &init)?;
    host.with_file(PARAMS, HEAVY)?;
    let line = b"nbody: grav 268435456 times mass 4294967296 is not below 2^60\n";
    check_refused(rt, alloc, &mut host, &["once", target], 4, line)
}

#[test]
fn too_heavy(rt: HostRuntime) -> Result<(), Fail> {
    // one body out, and too far away too, which is looked for after it
    check_heavy(&rt, rt.alloc(), 1, "1099511627777")?;
    // no body out, and no other cause
    check_heavy(&rt, rt.alloc(), 0, "1")
}

#[test]
fn just_light_enough(rt: HostRuntime) -> Result<(), Fail> {
    let text =
        b"grav = 1152921504606846975\ntheta_num = 1\ntheta_den = 2\nsoft = 1\nleaf = 8\nevery = 1\n";
    let light = snapshot(rt.alloc(), 0, &[(1, 1, 0, [0; 3], [0; 3])])?;
    let line = b"once time 0 ticks 0 out 0\n";
    check_done_by(&rt, rt.alloc(), text, &light, "0", line, &light)
}

#[test]
fn too_many_ticks(rt: HostRuntime) -> Result<(), Fail> {
    let table = [
        (
            0,
            "1099511627777",
            b"nbody: 1099511627777 ticks are more than 2^40\n".as_slice(),
        ),
        (
            1_099_511_627_777,
            "0",
            b"nbody: 1099511627777 ticks are more than 2^40\n",
        ),
        (
            u64::MAX,
            "0",
            b"nbody: 18446744073709551615 ticks are more than 2^40\n",
        ),
    ];
    for (time, target, line) in table {
        let init = header(rt.alloc(), 0, time)?;
        check_snapshot(&rt, rt.alloc(), &init, target, 8, line)?;
    }
    Ok(())
}

/// A snapshot of so many bodies at rest in a corner, at time 0.
fn crowd(alloc: Global, count: u64) -> Result<Vec<u8>, AllocError> {
    let mut bytes = header(alloc, count, 0)?;
    for id in 0..count {
        spell(&mut bytes, id, 1_000_000, 0, [0, 0, 0], [0, 0, 0])?;
    }
    Ok(bytes)
}

/// Parameters by which a crowd isn't too heavy.
const LIGHT: &[u8] = b"grav = 1\ntheta_num = 1\ntheta_den = 2\nsoft = 1\nleaf = 8\nevery = 100\n";

/// Runs `once` by these parameters on a snapshot that is refused so.
fn check_crowd(
    rt: &impl Abort,
    alloc: Global,
    text: &[u8],
    init: &[u8],
    target: &str,
    status: u8,
    line: &[u8],
) -> Result<(), Fail> {
    let mut host = host_of(alloc, init)?;
    host.with_file(PARAMS, text)?;
    check_refused(rt, alloc, &mut host, &["once", target], status, line)
}

#[test]
fn too_many_bodies(rt: HostRuntime) -> Result<(), Fail> {
    // too heavy too, and too many ticks, which are looked for after it; and too many alone
    let mut most = crowd(rt.alloc(), 4097)?;
    let line = b"nbody: 4097 bodies are more than 4096\n";
    check_crowd(&rt, rt.alloc(), TEXT, &most, "1099511627777", 10, line)?;
    check_crowd(&rt, rt.alloc(), LIGHT, &most, "1", 10, line)?;

    // A file of too many bodies whose last one is none is no snapshot, and parameters that are none are looked
    // for before it.
    let len = most.len();
    assert!(rt; len > 52);
    most[len - 52] = 2;
    let line = b"nbody: snapshot: flag at body 4096\n";
    check_crowd(&rt, rt.alloc(), TEXT, &most, "0", 3, line)?;
    let line = b"nbody: params: line 1 is out of range\n";
    check_crowd(&rt, rt.alloc(), b"soft = 0", &most, "0", 2, line)
}

#[test]
fn the_most_bodies(rt: HostRuntime) -> Result<(), Fail> {
    let most = crowd(rt.alloc(), 4096)?;
    let line = b"once time 0 ticks 0 out 0\n";
    check_done_by(&rt, rt.alloc(), LIGHT, &most, "0", line, &most)
}

/// A host call fails, the last one of which says the line: so much of it is said on Out, and nothing has changed
/// that isn't `once`'s.
fn check_fault(rt: &impl Abort, alloc: Global, call: u64, out: &[u8]) -> Result<(), Fail> {
    let (status, host) = after(alloc, TEXT, &ONE_BODY, &[call], &["once", "1"])?;
    assert_eq!(rt; (status, host.faults()), (11, 1), "call {call}");
    assert_eq!(rt;
        host.said(Channel::Err),
        b"nbody: a device fault\n".as_slice()
    );
    assert_eq!(rt; host.said(Channel::Out), out, "call {call}");
    assert_eq!(rt; host.bytes(INIT), ONE_BODY.as_slice());
    assert_eq!(rt; host.bytes(PARAMS), TEXT);
    Ok(())
}

/// Each host call fails in turn. The eighteenth, the last one, says the line.
#[test]
fn a_fault(rt: HostRuntime) -> Result<(), Fail> {
    for call in 1..18 {
        check_fault(&rt, rt.alloc(), call, b"")?;
    }
    check_fault(&rt, rt.alloc(), 18, b"once time 1 t")
}

/// What is in the file of `once` where it held 200 bytes, and this call fails.
fn check_old(rt: &impl Abort, alloc: Global, call: u64, left: &[u8]) -> Result<(), Fail> {
    let old = vec![in alloc; b'o'; 200]?;
    let mut host = host_of(alloc, &ONE_BODY)?;
    host.with_file(ONCE, &old)?;
    host.fail_at(&[call])?;
    assert_eq!(rt; run_words(alloc, &["once", "1"], &mut host), 11);
    assert_eq!(rt; host.bytes(ONCE), left, "call {call}");
    Ok(())
}

/// A longer file of `once` is cut before it is written, and each call that fails before its header is written
/// leaves of it what that call should. The seventh call cuts the file, the eighth syncs that, and the twelfth
/// syncs the shut gate.
#[test]
fn a_longer_old_file(rt: HostRuntime) -> Result<(), Fail> {
    let old = vec![in rt.alloc(); b'o'; 200]?;
    let mut host = host_of(rt.alloc(), &ONE_BODY)?;
    host.with_file(ONCE, &old)?;
    assert_eq!(rt; run_words(rt.alloc(), &["once", "1"], &mut host), 0);
    assert_eq!(rt; host.bytes(ONCE), ONE_BODY_LATER.as_slice());
    for call in 1..8 {
        check_old(&rt, rt.alloc(), call, &old)?;
    }
    for call in 8..12 {
        check_old(&rt, rt.alloc(), call, b"")?;
    }
    check_old(&rt, rt.alloc(), 12, b"\0")
}

/// A host call fails, and so does saying it.
#[test]
fn two_faults(rt: HostRuntime) -> Result<(), Fail> {
    for (call, next) in [(1, 2), (2, 3), (4, 5)] {
        let (status, host) = after(rt.alloc(), TEXT, &ONE_BODY, &[call, next], &["once", "1"])?;
        assert_eq!(rt; (status, host.faults(), host.calls()), (11, 2, next));
        assert_eq!(rt; host.said(Channel::Err), b"nbody: a de".as_slice());
    }
    Ok(())
}

/// The line of a refusal can't be said: the status becomes that of the fault, and half of the line was said.
#[test]
fn a_refusal_unsaid(rt: HostRuntime) -> Result<(), Fail> {
    let (status, host) = after(rt.alloc(), TEXT, &ONE_BODY, &[1], &["again"])?;
    assert_eq!(rt; (status, host.calls()), (11, 1));
    assert_eq!(rt; host.said(Channel::Err), b"nbody: the words ".as_slice());

    // after the sync, and the length and the bytes of the parameters
    let (status, host) = after(rt.alloc(), b"#", &ONE_BODY, &[4], &["once", "1"])?;
    assert_eq!(rt; (status, host.calls()), (11, 4));
    assert_eq!(rt; host.said(Channel::Err), b"nbody: params: ".as_slice());
    Ok(())
}

/// The header of a journal of three bodies from time 4 on, when one of them was out.
const FRONT: [u8; 88] = [
    0x53, 0x4e, 0x42, 0x4a, 0x52, 0x4e, 0x4c, 0x32, 0, 0xca, 0x9a, 0x3b, 0, 0, 0, 0, //
    1, 0, 0, 0, 0, 0, 0, 0, 2, 0, 0, 0, 0, 0, 0, 0, //
    5, 0, 0, 0, 0, 0, 0, 0, 8, 0, 0, 0, 0, 0, 0, 0, //
    100, 0, 0, 0, 0, 0, 0, 0, 3, 0, 0, 0, 0, 0, 0, 0, //
    4, 0, 0, 0, 0, 0, 0, 0, 1, 0, 0, 0, 0, 0, 0, 0, //
    1, 0, 0, 0, 0, 0, 0, 0,
];

/// The leg to time 9.
const LEG: [u8; 32] = [
    0x47, 0x4c, 0, 0, 0, 0, 0, 0, 9, 0, 0, 0, 0, 0, 0, 0, //
    0, 0, 0, 0, 0, 0, 0, 0, 0, 0, 0, 0, 0, 0, 0, 0,
];

/// Tick 1, after which two bodies are out.
const TICK: [u8; 32] = [
    0x47, 0x54, 0, 0, 0, 0, 0, 0, 1, 0, 0, 0, 0, 0, 0, 0, //
    2, 0, 0, 0, 0, 0, 0, 0, 0, 0, 0, 0, 0, 0, 0, 0,
];

/// What `show` says of the journal with the leg and the tick.
const SHOWN: &[u8] = b"folder time 5 ticks 1 target 9 bodies 3 out 2\n\
    grav = 1000000000\ntheta_num = 1\ntheta_den = 2\nsoft = 5\nleaf = 8\nevery = 100\nedge = wrap\n";

/// The bytes of the journal with the leg alone.
fn leg_bytes() -> [u8; 8192] {
    let mut bytes = [0; 8192];
    bytes[..88].copy_from_slice(&FRONT);
    bytes[4096..4128].copy_from_slice(&LEG);
    bytes
}

/// The bytes of the journal with the leg and the tick.
fn tick_bytes() -> [u8; 8192] {
    let mut bytes = leg_bytes();
    bytes[4128..4160].copy_from_slice(&TICK);
    bytes
}

/// A host with that journal, where the calls with these numbers fail.
fn journal_host(alloc: Global, failing: &[u64]) -> Result<MemoryHost, Fail> {
    let mut host = host_of(alloc, &ONE_BODY)?;
    host.with_file(JOURNAL, &tick_bytes())?;
    host.fail_at(failing)?;
    Ok(host)
}

#[test]
fn shows_a_journal(rt: HostRuntime) -> Result<(), Fail> {
    let mut host = journal_host(rt.alloc(), &[])?;
    let journal = Vec::from_slice(rt.alloc(), host.bytes(JOURNAL))?;
    // A sync, the length of the journal, its header, a page of entries, and the text.
    assert_eq!(rt; run_words(rt.alloc(), &["show"], &mut host), 0);
    assert_eq!(rt; host.calls(), 5);
    assert_eq!(rt; host.said(Channel::Out), SHOWN);
    assert_eq!(rt; host.said(Channel::Err), b"".as_slice());
    assert_eq!(rt; host.bytes(JOURNAL), journal.as_slice());
    assert_eq!(rt; host.bytes(ONCE), b"old".as_slice());
    Ok(())
}

#[test]
fn shows_no_journal(rt: HostRuntime) -> Result<(), Fail> {
    let mut host = MemoryHost::new(rt.alloc());
    let line = b"nbody: not started\n";
    check_refused(&rt, rt.alloc(), &mut host, &["show"], 5, line)?;

    let mut bytes = leg_bytes();
    bytes[4097] = b'Q';
    let mut host = host_of(rt.alloc(), &ONE_BODY)?;
    host.with_file(JOURNAL, &bytes)?;
    let line = b"nbody: damaged file 2 at 4096\n";
    check_refused(&rt, rt.alloc(), &mut host, &["show"], 12, line)?;
    assert_eq!(rt; host.bytes(JOURNAL), bytes.as_slice());
    Ok(())
}

/// Each host call of `show` fails in turn. The fifth, the last one, says the text.
#[test]
fn a_fault_while_it_shows(rt: HostRuntime) -> Result<(), Fail> {
    for call in 1..6 {
        let mut host = journal_host(rt.alloc(), &[call])?;
        assert_eq!(rt;
            run_words(rt.alloc(), &["show"], &mut host),
            11,
            "call {call}"
        );
        assert_eq!(rt; (host.faults(), host.calls()), (1, call + 1), "call {call}");
        assert_eq!(rt;
            host.said(Channel::Err),
            b"nbody: a device fault\n".as_slice()
        );
        let half: &[u8] = b"folder time 5 ticks 1 target 9 bodies 3 out 2\n\
            grav = 1000000000\nthe";
        let want = if call == 5 { half } else { b"" };
        assert_eq!(rt; host.said(Channel::Out), want, "call {call}");
    }
    Ok(())
}
