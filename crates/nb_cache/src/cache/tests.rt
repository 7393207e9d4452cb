//! Which pages are resident, when they are written, what the files hold, and what a crash leaves.

ghost use Rattle.std.specs.Prelude.{◌≡◌, ◌<◌, ◌^◌};
ghost use Rattle.nb_cache.specs.InStep.{IsInStep};

use super::*;
use nb_host::{MemoryHost, Outcome};
use std::test::Fail;

const FILE: u64 = 3;

fn page(number: u64) -> PageName
    ensures { result ≡ record { file = 3; page = number } }
{
    PageName {
        file: FILE,
        page: number,
    }
}

/// Puts a page of this byte.
fn put_byte<H: Host>(
    host: &mut H,
    cache: &mut Cache,
    number: u64,
    byte: u8,
) -> Result<(), CacheError>
    requires number { number < 2 ^ 48 }
    requires in_step { IsInStep H.meaning cache.old host.old }
    ensures in_step { IsInStep H.meaning cache.new host.new }
{
    cache.put(host, page(number), &[byte; PAGE_SIZE])
}

/// Puts these pages one after the other, each of the byte that is its number and 0x40.
fn put_all<H: Host>(host: &mut H, cache: &mut Cache, numbers: &[u8]) -> Result<(), CacheError>
    requires in_step { IsInStep H.meaning cache.old host.old }
    ensures in_step { IsInStep H.meaning cache.new host.new }
{
    for &number in numbers {
        put_byte(host, cache, u64::from(number), number | 0x40)?;
    }
    Ok(())
}

/// The last byte of a resident page.
fn shown(cache: &Cache, number: u64) -> Option<u8> {
    let bytes = cache.lent(page(number))?;
    Some(bytes[PAGE_SIZE - 1])
}

/// The last bytes of the pages of a file, and how many bytes are behind them.
fn ends(alloc: Global, file: &[u8]) -> Result<(Vec<u8>, usize), Fail> {
    let mut ends = Vec::new(alloc);
    for page in file.chunks_exact(PAGE_SIZE) {
        ends.push(page[PAGE_SIZE - 1])?;
    }
    Ok((ends, file.len() % PAGE_SIZE))
}

#[test]
fn pages_come_and_go(rt: HostRuntime) -> Result<(), Fail> {
    let alloc = rt.alloc();
    let mut host = MemoryHost::new(alloc);
    host.with_file(FILE, &vec![in alloc; 0; 5 * PAGE_SIZE]?)?;
    let mut cache = Cache::new(alloc, 4)?;
    let first = [page(0), page(1), page(2), page(3)];
    assert_eq!(rt; cache.fetch(&mut host, &first), Ok(()));
    assert_eq!(rt; cache.fetch(&mut host, &[page(4)]), Ok(()));
    assert_eq!(rt; host.reads(), 5);
    assert!(rt; cache.lent(page(0)).is_none());
    for number in 1..5 {
        assert!(rt; cache.lent(page(number)).is_some(), "page {number}");
    }
    assert_eq!(rt; cache.fetch(&mut host, &[page(2), page(4)]), Ok(()));
    assert_eq!(rt; host.reads(), 5);
    assert_eq!(rt;
        cache.fetch(&mut host, &[page(5)]),
        Err(CacheError::Short(page(5)))
    );
    assert_eq!(rt; cache.put(&mut host, page(5), &[0x41; PAGE_SIZE]), Ok(()));
    assert_eq!(rt; cache.flush(&mut host), Ok(()));
    assert_eq!(rt; host.bytes(FILE).len(), 24576);
    assert_eq!(rt; shown(&cache, 5), Some(0x41));
    assert_eq!(rt; cache.empty(&mut host, FILE), Ok(()));
    assert_eq!(rt; host.len(FILE), Ok(0));
    for number in 0..6 {
        assert!(rt; cache.lent(page(number)).is_none(), "page {number}");
    }
    assert_eq!(rt; cache.pages(), 4);
    Ok(())
}

#[test]
fn crashes_after_a_put(rt: HostRuntime) -> Result<(), Fail> {
    let alloc = rt.alloc();
    let cases = [
        (false, Outcome::Lost, 0),
        (false, Outcome::Kept, 0),
        (true, Outcome::Lost, 0),
        (true, Outcome::Kept, 0x41),
    ];
    for (flushes, outcome, byte) in cases {
        let mut host = MemoryHost::new(alloc);
        host.with_file(FILE, &[0; PAGE_SIZE])?;
        host.with_file(2, b"abc")?;
        let mut cache = Cache::new(alloc, 4)?;
        assert_eq!(rt; put_byte(&mut host, &mut cache, 0, 0x41), Ok(()));
        if flushes {
            assert_eq!(rt; cache.flush(&mut host), Ok(()));
        }
        host.crash(outcome)?;
        assert_eq!(rt; host.bytes(FILE), [byte; PAGE_SIZE].as_slice());
        assert_eq!(rt; host.bytes(2), b"abc".as_slice());
    }
    Ok(())
}

/// What is left after pages 0 to 3 were put into a file of so many pages of zeros, page 0 was used again where
/// that is asked, and page 4 was put, for which one of the four leaves.
fn evict<H: Host>(host: &mut H, cache: &mut Cache, use_0: bool) -> Result<(), CacheError>
    requires in_step { IsInStep H.meaning cache.old host.old }
    ensures in_step { IsInStep H.meaning cache.new host.new }
{
    put_all(host, cache, &[0, 1, 2, 3])?;
    if use_0 {
        put_byte(host, cache, 0, 0x50)?;
    }
    put_byte(host, cache, 4, 0x44)
}

#[test]
fn pages_that_leave_are_written(rt: HostRuntime) -> Result<(), Fail> {
    let alloc = rt.alloc();
    // The pages of the file, whether page 0 is used again, the call that fails (0: none), and then the answer,
    // how many calls were made, the last bytes of the pages of the file, and how many are behind them.
    let fault = Err(CacheError::Fault);
    let cases = [
        // Within the file.
        (6, false, 0, Ok(()), 1, [0x40, 0, 0, 0, 0, 0].as_slice(), 0),
        (6, false, 1, fault, 1, &[0, 0, 0, 0, 0, 0], 0),
        // At the end of the file.
        (0, false, 0, Ok(()), 1, &[0x40], 0),
        (0, false, 1, fault, 1, &[], 2048),
        // Behind a gap, which reads as zeros.
        (0, true, 0, Ok(()), 1, &[0, 0x41], 0),
        (0, true, 1, fault, 1, &[0], 2048),
    ];
    for (pages, use_0, failing, answer, calls, left, behind) in cases {
        let mut host = MemoryHost::new(alloc);
        host.with_file(FILE, &vec![in alloc; 0; pages * PAGE_SIZE]?)?;
        host.fail_at(&[failing])?;
        let mut cache = Cache::new(alloc, 4)?;
        assert_eq!(rt; evict(&mut host, &mut cache, use_0), answer);
        assert_eq!(rt; host.calls(), calls);
        let (found, rest) = ends(alloc, host.bytes(FILE))?;
        assert_eq!(rt; found.as_slice(), left);
        assert_eq!(rt; rest, behind);
        // Where the write failed, all four are as they were, and dirty.
        let first = if use_0 { 0x50 } else { 0x40 };
        assert_eq!(rt; put_byte(&mut host, &mut cache, 4, 0x44), Ok(()));
        assert_eq!(rt; cache.flush(&mut host), Ok(()));
        let (found, rest) = ends(alloc, host.bytes(FILE))?;
        assert_eq!(rt; rest, 0);
        assert!(rt; found.starts_with(&[first, 0x41, 0x42, 0x43, 0x44]));
    }
    Ok(())
}

#[test]
fn dirty_pages_are_written_once(rt: HostRuntime) -> Result<(), Fail> {
    let alloc = rt.alloc();
    let mut host = MemoryHost::new(alloc);
    host.with_file(FILE, &vec![in alloc; 0; 3 * PAGE_SIZE]?)?;
    host.fail_at(&[2])?;
    let mut cache = Cache::new(alloc, 4)?;
    // In rising order, whatever the order of the puts. The second write fails, and the page is still dirty.
    assert_eq!(rt; put_all(&mut host, &mut cache, &[0, 1, 2, 0]), Ok(()));
    assert_eq!(rt; host.calls(), 0);
    assert_eq!(rt; cache.flush(&mut host), Err(CacheError::Fault));
    assert_eq!(rt; host.calls(), 2);
    assert_eq!(rt;
        ends(alloc, host.bytes(FILE))?.0.as_slice(),
        [0x40, 0, 0].as_slice()
    );
    assert_eq!(rt; cache.flush(&mut host), Ok(()));
    assert_eq!(rt; host.calls(), 4);
    assert_eq!(rt;
        ends(alloc, host.bytes(FILE))?.0.as_slice(),
        [0x40, 0x41, 0x42].as_slice()
    );
    // A file that is emptied loses its dirty pages.
    assert_eq!(rt; put_all(&mut host, &mut cache, &[1]), Ok(()));
    assert_eq!(rt; cache.empty(&mut host, FILE), Ok(()));
    assert_eq!(rt; cache.flush(&mut host), Ok(()));
    assert_eq!(rt; host.calls(), 5);
    assert_eq!(rt; host.bytes(FILE).len(), 0);
    Ok(())
}

#[test]
fn pages_behind_a_gap(rt: HostRuntime) -> Result<(), Fail> {
    let alloc = rt.alloc();
    let mut host = MemoryHost::new(alloc);
    host.fail_at(&[2])?;
    let mut cache = Cache::new(alloc, 4)?;
    // The host is asked for the file's length, and writes at once. Here this fails.
    assert_eq!(rt;
        put_byte(&mut host, &mut cache, 2, 0x42),
        Err(CacheError::Fault)
    );
    assert_eq!(rt; shown(&cache, 2), None);
    assert_eq!(rt; host.bytes(FILE).len(), 10240);
    // Now the page is within the file, and dirty.
    assert_eq!(rt; put_byte(&mut host, &mut cache, 2, 0x42), Ok(()));
    assert_eq!(rt; host.calls(), 3);
    assert_eq!(rt; put_byte(&mut host, &mut cache, 5, 0x45), Ok(()));
    assert_eq!(rt; host.calls(), 5);
    let left = [0, 0, 0, 0, 0, 0x45];
    assert_eq!(rt;
        ends(alloc, host.bytes(FILE))?.0.as_slice(),
        left.as_slice()
    );
    assert_eq!(rt; cache.flush(&mut host), Ok(()));
    assert_eq!(rt; host.calls(), 6);
    let left = [0, 0, 0x42, 0, 0, 0x45];
    assert_eq!(rt;
        ends(alloc, host.bytes(FILE))?.0.as_slice(),
        left.as_slice()
    );
    Ok(())
}

#[test]
fn faults_are_told(rt: HostRuntime) -> Result<(), Fail> {
    let alloc = rt.alloc();
    let mut host = MemoryHost::new(alloc);
    host.with_file(FILE, &[7; 2 * PAGE_SIZE])?;
    let mut cache = Cache::new(alloc, 4)?;
    host.fail_at(&[2, 4])?;
    // A read that fails leaves the page out, and the next one brings it.
    assert_eq!(rt; cache.fetch(&mut host, &[page(0)]), Ok(()));
    assert_eq!(rt; cache.fetch(&mut host, &[page(1)]), Err(CacheError::Fault));
    assert_eq!(rt; host.faults(), 1);
    assert!(rt; cache.lent(page(1)).is_none());
    assert_eq!(rt; cache.fetch(&mut host, &[page(0), page(1)]), Ok(()));
    assert_eq!(rt; shown(&cache, 1), Some(7));
    // A cut that fails leaves the file, and the next one empties it.
    assert_eq!(rt; cache.empty(&mut host, FILE), Err(CacheError::Fault));
    assert_eq!(rt; host.faults(), 2);
    assert_eq!(rt; host.bytes(FILE).len(), 8192);
    assert_eq!(rt; cache.empty(&mut host, FILE), Ok(()));
    assert_eq!(rt; host.bytes(FILE).len(), 0);
    Ok(())
}
