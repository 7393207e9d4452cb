//! What a host in memory does at each of its calls, and where it is told to fail. Each row of a table goes
//! through a small function, which says whether all was as it is to be.

ghost use Rattle.std.specs.Prelude.{◌+◌, ◌<◌, ◌≤◌, length};
ghost use Rattle.nb_host.specs.declared.host.TheConstants.{LAST_FILE, PLACE_LIMIT};

use super::*;
use std::test::Fail;

const FILE: u64 = 5;

fn with_bytes(alloc: Global, bytes: &[u8]) -> Result<MemoryHost, NoMemory> {
    let mut host = MemoryHost::new(alloc);
    host.with_file(FILE, bytes)?;
    Ok(host)
}

// A write over `abc`, with the calls of these numbers set to fail, leaves the file so.
fn write_leaves(
    alloc: Global,
    at: u64,
    bytes: &[u8],
    failing: &[u64],
    want: &[u8],
) -> Result<bool, NoMemory>
    requires { at + length bytes.now < PLACE_LIMIT }
{
    let mut host = with_bytes(alloc, b"abc")?;
    host.fail_at(failing)?;
    let passes = host.write_at(FILE, at, bytes).is_ok();
    let counted = host.faults() == failing.len() as u64;
    Ok(counted && passes == failing.is_empty() && host.bytes(FILE) == want)
}

#[test]
fn writes(rt: HostRuntime) -> Result<(), Fail> {
    let table = [
        // within the file, to its end, across it, at it, past it, and nothing
        (1, b"X".as_slice(), b"aXc".as_slice(), b"abc".as_slice()),
        (0, b"XYZ", b"XYZ", b"Xbc"),
        (2, b"XY", b"abXY", b"abX"),
        (3, b"XY", b"abcXY", b"abcX"),
        (5, b"XY", b"abc\0\0XY", b"abc\0\0X"),
        (5, b"WXYZ", b"abc\0\0WXYZ", b"abc\0\0WX"),
        (5, b"X", b"abc\0\0X", b"abc"),
        (9, b"", b"abc", b"abc"),
    ];
    for (at, bytes, whole, half) in table {
        assert!(rt; at < 10 && bytes.len() < 10);
        assert!(rt; write_leaves(rt.alloc(), at, bytes, &[], whole)?, "at {at}");
        assert!(rt;
            write_leaves(rt.alloc(), at, bytes, &[1], half)?,
            "half at {at}"
        );
    }
    Ok(())
}

// A cut of `abc` that fails leaves all, and the next one so much.
fn cut_leaves(alloc: Global, len: u64, want: &[u8]) -> Result<bool, NoMemory> {
    let mut host = with_bytes(alloc, b"abc")?;
    host.fail_at(&[1])?;
    let failed = host.cut(FILE, len) == Err(HostError::Fault)
        && host.bytes(FILE) == b"abc".as_slice();
    let cut = host.cut(FILE, len).is_ok() && host.bytes(FILE) == want;
    Ok(failed && cut && host.cut(FILE + 1, len).is_ok() && host.len(FILE + 1) == Ok(0))
}

#[test]
fn cuts(rt: HostRuntime) -> Result<(), Fail> {
    for (len, want) in [(0, b"".as_slice()), (2, b"ab"), (3, b"abc"), (4, b"abc")] {
        assert!(rt; cut_leaves(rt.alloc(), len, want)?, "to {len}");
    }
    Ok(())
}

// A read of `abc` gives so many bytes, and one that fails changes nothing.
fn read_gives(
    alloc: Global,
    file: u64,
    at: u64,
    asked: usize,
    count: usize,
    want: &[u8],
) -> Result<bool, NoMemory>
    requires room { asked ≤ 5 }
    requires offset { at + 5 < PLACE_LIMIT }
    requires number { file ≤ LAST_FILE }
{
    let mut host = with_bytes(alloc, b"abc")?;
    let mut room = *b"-----";
    let given = host.read_at(file, at, &mut room[..asked]) == Ok(count) && room.as_slice() == want;
    host.fail_at(&[1])?;
    let failed = host.read_at(file, at, &mut room).is_err() && room.as_slice() == want;
    Ok(given && failed && host.reads() == 2)
}

#[test]
fn reads(rt: HostRuntime) -> Result<(), Fail> {
    let table = [
        // the whole file, a part, across its end, at it, and past it
        (FILE, 0, 5, 3, b"abc--".as_slice()),
        (FILE, 1, 1, 1, b"b----"),
        (FILE, 1, 5, 2, b"bc---"),
        (FILE, 3, 5, 0, b"-----"),
        (FILE, 7, 5, 0, b"-----"),
        (FILE + 1, 0, 5, 0, b"-----"),
    ];
    for (file, at, asked, count, want) in table {
        assert!(rt; file < 7 && at < 10 && asked < 6);
        assert!(rt;
            read_gives(rt.alloc(), file, at, asked, count, want)?,
            "at {at}"
        );
    }
    Ok(())
}

// Says on a channel, and answers whether it passed.
fn says_on(host: &mut MemoryHost, channel: Channel, bytes: &[u8]) -> bool {
    host.say(channel, bytes).is_ok()
}

#[test]
fn says(rt: HostRuntime) -> Result<(), Fail> {
    let mut host = MemoryHost::new(rt.alloc());
    host.fail_at(&[2, 4])?;
    assert!(rt; says_on(&mut host, Channel::Out, b"one\n"));
    assert!(rt; !says_on(&mut host, Channel::Err, b"three"));
    assert!(rt; says_on(&mut host, Channel::Out, b"two\n"));
    assert!(rt; !says_on(&mut host, Channel::Err, b"!"));
    assert_eq!(rt; host.said(Channel::Out), b"one\ntwo\n".as_slice());
    assert_eq!(rt; host.said(Channel::Err), b"th".as_slice());
    Ok(())
}

// Each of the six calls once, through the bound alone.
fn each_call<H: Host>(host: &mut H) -> [bool; 6] {
    let mut room = [0; 2];
    [
        host.len(FILE).is_ok(),
        host.read_at(FILE, 0, &mut room).is_ok(),
        host.write_at(FILE, 0, b"XY").is_ok(),
        host.cut(FILE, 1).is_ok(),
        host.sync().is_ok(),
        host.say(Channel::Out, b"go").is_ok(),
    ]
}

// The six calls pass so, and the counts of calls, of reads and of faults are then these.
fn calls_pass(host: &mut MemoryHost, want: [bool; 6], counts: (u64, u64, u64)) -> bool {
    let passed = each_call(host);
    passed == want && (host.calls(), host.reads(), host.faults()) == counts
}

#[test]
fn counts_calls(rt: HostRuntime) -> Result<(), Fail> {
    let mut host = MemoryHost::new(rt.alloc());
    assert!(rt; calls_pass(&mut host, [true; 6], (6, 1, 0)));
    host.with_file(FILE, b"abc")?;

    // The numbers count from where they are set, stay set, and no call has the number 0.
    host.fail_at(&[6, 0, 2, 2, 9])?;
    assert!(rt;
        calls_pass(
            &mut host,
            [true, false, true, true, true, false],
            (12, 2, 2)
        )
    );
    assert_eq!(rt; host.bytes(FILE), b"X".as_slice());
    assert_eq!(rt; host.said(Channel::Out), b"gog".as_slice());

    // The seventh and the eighth passed, and the ninth would fail, but others are set in its place.
    assert!(rt; host.sync().is_ok() && host.sync().is_ok());
    host.fail_at(&[1, 5])?;
    assert!(rt;
        calls_pass(
            &mut host,
            [false, true, true, true, false, true],
            (20, 3, 4)
        )
    );
    host.fail_at(&[])?;
    assert!(rt; calls_pass(&mut host, [true; 6], (26, 4, 4)));
    Ok(())
}

// A write whose file holds the bytes where it passed, and what it held before where it didn't.
fn writes_or_not(host: &mut MemoryHost, file: u64, bytes: &[u8], before: &[u8]) -> bool
    requires number { file ≤ LAST_FILE }
    requires offset { length bytes.now < PLACE_LIMIT }
{
    if host.write_at(file, 0, bytes).is_ok() {
        host.bytes(file) == bytes
    } else {
        host.bytes(file) == before
    }
}

// The same of a say, of which a fault says the first half.
fn says_or_not(host: &mut MemoryHost, channel: Channel, bytes: &[u8], half: &[u8]) -> bool {
    match host.say(channel, bytes) {
        Ok(()) => host.said(channel) == bytes,
        Err(HostError::Fault) => host.said(channel) == half,
        Err(HostError::NoMemory) => host.said(channel) == b"".as_slice(),
    }
}

// A call that is refused memory does nothing: `rt try --test --fail-alloc N` refuses the Nth request.
#[test]
fn refused_memory_changes_nothing(rt: HostRuntime) -> Result<(), Fail> {
    let mut host = MemoryHost::new(rt.alloc());
    let file = if host.with_file(FILE, b"abc").is_ok() {
        b"abc".as_slice()
    } else {
        b""
    };
    assert_eq!(rt; host.bytes(FILE), file);
    assert!(rt; writes_or_not(&mut host, FILE, b"wxyz", file));
    assert!(rt; writes_or_not(&mut host, FILE + 1, b"uv", b""));
    assert!(rt; says_or_not(&mut host, Channel::Out, b"said", b""));
    let fails = host.fail_at(&[1, 2]).is_ok();
    assert!(rt; host.sync().is_err() == fails);
    assert!(rt; says_or_not(&mut host, Channel::Err, b"half", b"ha"));
    assert_eq!(rt; host.calls(), 5);
    Ok(())
}

// A crash that is refused memory leaves the bytes, and else fills those that no sync made durable.
#[test]
fn refused_crash_changes_nothing(rt: HostRuntime) -> Result<(), Fail> {
    let mut host = with_bytes(rt.alloc(), b"abc")?;
    let before = if host.write_at(FILE, 1, b"X").is_ok() {
        b"aXc".as_slice()
    } else {
        b"abc"
    };
    let filled = if before == b"aXc".as_slice() {
        b"a?c".as_slice()
    } else {
        b"abc"
    };
    let want = if host.crash(Outcome::Filled(b'?')).is_ok() {
        filled
    } else {
        before
    };
    assert_eq!(rt; host.bytes(FILE), want);
    Ok(())
}

// What a host does to a file before it crashes.
fn change(host: &mut MemoryHost, step: u8) -> Result<(), HostError> {
    match step {
        0 => host.write_at(FILE, 1, b"XY"),
        1 => host.write_at(FILE, 8, b"X"),
        2 => host.write_at(FILE, 9, b""),
        3 => host.cut(FILE, 2),
        4 => host.sync(),
        _ => host.write_at(FILE, 0, b"Z"),
    }
}

// These steps and then a crash leave the file so, and that is durable.
fn crash_leaves(
    alloc: Global,
    steps: &[u8],
    outcome: Outcome,
    want: &[u8],
) -> Result<bool, HostError> {
    let mut host = with_bytes(alloc, b"abcdef")?;
    host.with_file(FILE + 1, b"abc")?;
    for step in steps {
        change(&mut host, *step)?;
    }
    host.crash(outcome)?;
    let left = host.bytes(FILE) == want;
    host.crash(Outcome::Lost)?;
    Ok(left && host.bytes(FILE) == want && host.bytes(FILE + 1) == b"abc".as_slice())
}

#[test]
fn crashes(rt: HostRuntime) -> Result<(), Fail> {
    let table = [
        // written within, past the end, and nothing; cut; cut and written past the new end; synced between
        (
            b"".as_slice(),
            b"abcdef".as_slice(),
            b"abcdef".as_slice(),
            b"abcdef".as_slice(),
        ),
        (b"\0", b"aXYdef", b"abcdef", b"aAAdef"),
        (b"\x01", b"abcdef\0\0X", b"abcdef", b"abcdefAAA"),
        (b"\x02", b"abcdef", b"abcdef", b"abcdef"),
        (b"\x03", b"ab", b"abcdef", b"abAAAA"),
        (b"\x03\x01", b"ab\0\0\0\0\0\0X", b"abcdef", b"abAAAAAAA"),
        (b"\0\x04\x05", b"ZXYdef", b"aXYdef", b"AXYdef"),
        (b"\x03\x04\0", b"aXY", b"ab", b"aAA"),
    ];
    for (steps, kept, lost, filled) in table {
        assert!(rt; crash_leaves(rt.alloc(), steps, Outcome::Kept, kept) == Ok(true));
        assert!(rt; crash_leaves(rt.alloc(), steps, Outcome::Lost, lost) == Ok(true));
        assert!(rt; crash_leaves(rt.alloc(), steps, Outcome::Filled(b'A'), filled) == Ok(true));
    }
    Ok(())
}

// A write of `XY` past the end of `abc`, which reads so, and what the crash leaves of it.
fn write_crashes(
    alloc: Global,
    failing: &[u64],
    outcome: Outcome,
    reads: &[u8],
    want: &[u8],
) -> Result<bool, NoMemory> {
    let mut host = with_bytes(alloc, b"abc")?;
    host.fail_at(failing)?;
    let passes = host.write_at(FILE, 5, b"XY").is_ok();
    let counted = (host.calls(), host.faults()) == (1, failing.len() as u64);
    let read = host.bytes(FILE) == reads;
    host.crash(outcome)?;
    Ok(passes == failing.is_empty() && counted && read && host.bytes(FILE) == want)
}

#[test]
fn crashes_after_a_write(rt: HostRuntime) -> Result<(), Fail> {
    let whole = b"abc\0\0XY".as_slice();
    let half = b"abc\0\0X".as_slice();
    let none: &[u64] = &[];
    let table = [
        (Outcome::Kept, none, whole, b"abc\0\0XY".as_slice()),
        (Outcome::Lost, none, whole, b"abc"),
        (Outcome::Filled(0x41), none, whole, b"abcAAAA"),
        (Outcome::Kept, &[1], half, b"abc\0\0X"),
        (Outcome::Lost, &[1], half, b"abc"),
        // The whole range that the call would have written is unsynced.
        (Outcome::Filled(0x41), &[1], half, b"abcAAAA"),
    ];
    for (outcome, failing, reads, want) in table {
        assert!(rt; write_crashes(rt.alloc(), failing, outcome, reads, want)?);
    }
    Ok(())
}

// Writes, and answers whether it passed.
fn writes_at(host: &mut MemoryHost, at: u64, bytes: &[u8]) -> bool
    requires { at + length bytes.now < PLACE_LIMIT }
{
    host.write_at(FILE, at, bytes).is_ok()
}

#[test]
fn fuse_and_numbers(rt: HostRuntime) -> Result<(), Fail> {
    let mut host = with_bytes(rt.alloc(), b"abcd")?;
    host.fail_at(&[1, 3, 5, 7])?;
    host.fuse(2);
    // half, by its number; whole; half, as the first that the fuse fails; and nothing from there on
    assert!(rt; !writes_at(&mut host, 0, b"PQ"));
    assert!(rt; writes_at(&mut host, 1, b"R"));
    assert!(rt; !writes_at(&mut host, 2, b"STUV"));
    assert_eq!(rt; host.bytes(FILE), b"PRST".as_slice());
    assert!(rt; !writes_at(&mut host, 0, b"WX"));
    assert!(rt; !writes_at(&mut host, 0, b"WX"));
    assert!(rt; !says_on(&mut host, Channel::Out, b"said"));
    assert_eq!(rt; host.bytes(FILE), b"PRST".as_slice());
    assert_eq!(rt; host.said(Channel::Out), b"".as_slice());
    assert_eq!(rt; (host.calls(), host.faults()), (6, 5));
    Ok(())
}

// A new fuse takes the old one's place, and the numbers count on. After a crash none is set to fail, and what was
// said stays.
#[test]
fn a_new_fuse(rt: HostRuntime) -> Result<(), Fail> {
    let mut host = with_bytes(rt.alloc(), b"abcd")?;
    host.fail_at(&[1])?;
    host.fuse(0);
    assert!(rt; host.sync().is_err());
    host.fuse(1);
    assert!(rt; says_on(&mut host, Channel::Out, b"a"));
    assert!(rt; !says_on(&mut host, Channel::Out, b"said"));
    assert!(rt; host.sync().is_err());
    assert_eq!(rt; host.said(Channel::Out), b"asa".as_slice());
    host.crash(Outcome::Lost)?;
    assert_eq!(rt; host.bytes(FILE), b"abcd".as_slice());
    assert!(rt; host.sync().is_ok());
    assert_eq!(rt; host.said(Channel::Out), b"asa".as_slice());
    assert_eq!(rt; (host.calls(), host.faults()), (5, 3));
    Ok(())
}

// A page of As over one of zeros, and a crash.
fn page_crashes(alloc: Global, outcome: Outcome, want: u8) -> Result<bool, HostError> {
    let mut host = MemoryHost::new(alloc);
    host.with_file(3, &[0; 4096])?;
    host.with_file(2, b"abc")?;
    host.write_at(3, 0, &[0x41; 4096])?;
    host.crash(outcome)?;
    Ok(host.bytes(3) == [want; 4096].as_slice() && host.bytes(2) == b"abc".as_slice())
}

#[test]
fn crashes_after_a_page(rt: HostRuntime) -> Result<(), Fail> {
    assert!(rt; page_crashes(rt.alloc(), Outcome::Lost, 0) == Ok(true));
    assert!(rt; page_crashes(rt.alloc(), Outcome::Kept, 0x41) == Ok(true));
    Ok(())
}
