//! Bodies that are pushed and read, and pages that refuse them.

ghost use Rattle.std.specs.Prelude.{◌≡◌, ◌≤◌};
ghost use Rattle.nb_model.specs.Limits.{kick_limit};
ghost use Rattle.nb_model.specs.Valid.{IsBelow, IsValidBody};
ghost use Rattle.nb_cache.specs.InStep.{IsInStep};

use super::*;
use nb_cache::CacheError;
use nb_host::MemoryHost;
use nb_model::At;
use std::alloc::Global;
use std::test::Fail;

const FILE: u64 = 5;

fn page(number: u64) -> PageName
    ensures { result ≡ record { file = 5; page = number } }
{
    PageName {
        file: FILE,
        page: number,
    }
}

fn body(id: u64) -> Body
    ensures { IsValidBody result }
{
    Body {
        id,
        mass: 3,
        out: false,
        at: At { x: 1, y: 2, z: 3 },
        v: V3 { x: -1, y: 0, z: 1 },
    }
}

/// The kick of the body of a number.
fn kick(number: u8) -> V3
    ensures { IsBelow kick_limit result }
{
    V3 {
        x: i64::from(number),
        y: -2,
        z: 0,
    }
}

/// Pushes so many bodies into an empty file, each with a kick of its own.
fn push_bodies<H: Host>(host: &mut H, cache: &mut Cache, count: u8) -> Result<(), OrderError>
    requires in_step { IsInStep H.meaning cache.old host.old }
    ensures { IsInStep H.meaning cache.new host.new }
{
    for number in 0..count {
        let index = u64::from(number);
        push_body(host, cache, FILE, index, &body(index), &kick(number))?;
    }
    Ok(())
}

#[test]
fn two_pages_of_bodies(rt: HostRuntime) -> Result<(), Fail> {
    let alloc = rt.alloc();
    let mut host = MemoryHost::new(alloc);
    let mut cache = Cache::new(alloc, 4)?;
    assert_eq!(rt; push_bodies(&mut host, &mut cache, 64), Ok(()));
    assert_eq!(rt; cache.flush(&mut host), Ok(()));
    assert_eq!(rt; host.bytes(FILE).len(), 8192);
    assert_eq!(rt; body_at(&mut host, &mut cache, FILE, 45), Ok(body(45)));
    assert_eq!(rt; kick_at(&mut host, &mut cache, FILE, 45), Ok(kick(45)));
    assert_eq!(rt; body_at(&mut host, &mut cache, FILE, 46), Ok(body(46)));
    assert_eq!(rt; kick_at(&mut host, &mut cache, FILE, 46), Ok(kick(46)));
    assert_eq!(rt; body_at(&mut host, &mut cache, FILE, 63), Ok(body(63)));
    let damaged = Err(OrderError::Damaged(page(1)));
    assert_eq!(rt; body_at(&mut host, &mut cache, FILE, 64), damaged);
    assert_eq!(rt; cache.put(&mut host, page(1), &[0; PAGE_SIZE]), Ok(()));
    assert_eq!(rt; body_at(&mut host, &mut cache, FILE, 63), damaged);
    assert!(rt; kick_at(&mut host, &mut cache, FILE, 63).is_err());
    Ok(())
}

#[test]
fn a_body_of_another_number(rt: HostRuntime) -> Result<(), Fail> {
    let alloc = rt.alloc();
    let damaged = OrderError::Damaged(page(0));
    let mut host = MemoryHost::new(alloc);
    let mut cache = Cache::new(alloc, 4)?;
    assert_eq!(rt;
        push_body(&mut host, &mut cache, FILE, 5, &body(0), &kick(0)),
        Err(damaged)
    );
    assert_eq!(rt;
        push_body(&mut host, &mut cache, FILE, 0, &body(0), &kick(0)),
        Ok(())
    );
    assert_eq!(rt;
        push_body(&mut host, &mut cache, FILE, 5, &body(1), &kick(1)),
        Err(damaged)
    );
    assert_eq!(rt;
        push_body(&mut host, &mut cache, FILE, 1, &body(1), &kick(1)),
        Ok(())
    );
    assert_eq!(rt; cache.flush(&mut host), Ok(()));
    assert_eq!(rt; host.bytes(FILE).len(), 4096);
    assert_eq!(rt; body_at(&mut host, &mut cache, FILE, 1), Ok(body(1)));
    Ok(())
}

/// What a read of the one body of a page answers, one byte of which is changed, and then a push behind it.
fn answers(
    alloc: Global,
    offset: u8,
    byte: u8,
) -> Result<(Result<Body, OrderError>, Result<(), OrderError>), Fail> {
    let mut bytes = [0; PAGE_SIZE];
    begin_body_page(&mut bytes, 0);
    add_body(&mut bytes, &body(0), &kick(0));
    bytes[usize::from(offset)] = byte;
    let mut host = MemoryHost::new(alloc);
    let mut cache = Cache::new(alloc, 4)?;
    cache
        .put(&mut host, page(0), &bytes)
        .map_err(OrderError::from)?;
    let read = body_at(&mut host, &mut cache, FILE, 0);
    let pushed = push_body(&mut host, &mut cache, FILE, 1, &body(1), &kick(1));
    Ok((read, pushed))
}

#[test]
fn pages_that_are_not_of_the_form(rt: HostRuntime) -> Result<(), Fail> {
    let alloc = rt.alloc();
    let damaged = OrderError::Damaged(page(0));
    // The number, a count too great, no body, a next page, and the zeros behind it.
    for (offset, byte) in [(0, 1), (8, 47), (8, 0), (16, 1), (24, 1)] {
        assert_eq!(rt;
            answers(alloc, offset, byte)?,
            (Err(damaged), Err(damaged)),
            "byte {offset}"
        );
    }
    // No mass, a flag too great, a position outside the box, and a kick too great.
    for (offset, byte) in [(40, 0), (44, 2), (53, 1), (103, 16)] {
        assert_eq!(rt;
            answers(alloc, offset, byte)?,
            (Err(damaged), Ok(())),
            "byte {offset}"
        );
    }
    Ok(())
}

#[test]
fn a_write_that_fails(rt: HostRuntime) -> Result<(), Fail> {
    let alloc = rt.alloc();
    let mut host = MemoryHost::new(alloc);
    let mut cache = Cache::new(alloc, 4)?;
    host.fail_at(&[1])?;
    // The body waits in the cache, and still does where its page can't be written.
    assert_eq!(rt;
        push_body(&mut host, &mut cache, FILE, 0, &body(0), &kick(0)),
        Ok(())
    );
    assert_eq!(rt; cache.flush(&mut host), Err(CacheError::Fault));
    assert_eq!(rt; body_at(&mut host, &mut cache, FILE, 0), Ok(body(0)));
    assert_eq!(rt; cache.flush(&mut host), Ok(()));
    assert_eq!(rt; host.bytes(FILE).len(), 4096);
    assert_eq!(rt; host.faults(), 1);
    Ok(())
}
