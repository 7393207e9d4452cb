//! Sorted files with known answers.

ghost use Rattle.std.specs.Prelude.{◌≡◌, ◌<◌};
ghost use Rattle.nb_model.specs.Limits.{box_side, kick_limit};
ghost use Rattle.nb_model.specs.Valid.{IsBelow, IsValidBody};

use super::*;
use crate::body_file::kick_at;
use crate::order::{ById, ByKey};
use nb_host::{MemoryHost, PageName};
use nb_model::{At, Body, V3};
use std::test::Fail;

const FROM: u64 = 5;

const TO: u64 = 6;

/// The middle of an axis, in box units.
const HALF: u64 = 1 << 39;

/// The side of a cell of the deepest level, in box units.
const SIDE: u64 = 1 << 19;

/// A body of mass 1, at rest at (x, 0, 0).
fn body(id: u64, x: u64, out: bool) -> Body
    requires { x < box_side }
    ensures { IsValidBody result }
{
    Body {
        id,
        mass: 1,
        out,
        at: At { x, y: 0, z: 0 },
        v: V3 { x: 0, y: 0, z: 0 },
    }
}

/// The kick of the body of an id.
fn kick(id: u8) -> V3
    ensures { IsBelow kick_limit result }
{
    V3 {
        x: i64::from(id),
        y: 0,
        z: -1,
    }
}

#[test]
fn bodies_are_sorted(rt: HostRuntime) -> Result<(), Fail> {
    let alloc = rt.alloc();
    let mut host = MemoryHost::new(alloc);
    let mut cache = Cache::new(alloc, 4)?;
    let mut sorter = Sorter::new(alloc);
    assert_eq!(rt;
        push_body(
            &mut host,
            &mut cache,
            FROM,
            0,
            &body(1, HALF, false),
            &kick(1)
        ),
        Ok(())
    );
    assert_eq!(rt;
        push_body(&mut host, &mut cache, FROM, 1, &body(2, 0, true), &kick(2)),
        Ok(())
    );
    assert_eq!(rt;
        push_body(&mut host, &mut cache, FROM, 2, &body(3, 0, false), &kick(3)),
        Ok(())
    );
    assert_eq!(rt; cache.flush(&mut host), Ok(()));
    let from = Vec::from_slice(alloc, host.bytes(FROM))?;
    let by_key = reorder(&mut host, &mut cache, &mut sorter, &ByKey, FROM, TO, 3);
    assert_eq!(rt; by_key, Ok(()));
    assert_eq!(rt;
        body_at(&mut host, &mut cache, TO, 0),
        Ok(body(3, 0, false))
    );
    assert_eq!(rt;
        body_at(&mut host, &mut cache, TO, 1),
        Ok(body(1, HALF, false))
    );
    assert_eq!(rt; body_at(&mut host, &mut cache, TO, 2), Ok(body(2, 0, true)));
    assert_eq!(rt; kick_at(&mut host, &mut cache, TO, 0), Ok(kick(3)));
    assert_eq!(rt; kick_at(&mut host, &mut cache, TO, 1), Ok(kick(1)));
    assert_eq!(rt; kick_at(&mut host, &mut cache, TO, 2), Ok(kick(2)));
    let by_id = reorder(&mut host, &mut cache, &mut sorter, &ById, FROM, TO, 3);
    assert_eq!(rt; by_id, Ok(()));
    assert_eq!(rt;
        body_at(&mut host, &mut cache, TO, 0),
        Ok(body(1, HALF, false))
    );
    assert_eq!(rt; body_at(&mut host, &mut cache, TO, 1), Ok(body(2, 0, true)));
    assert_eq!(rt;
        body_at(&mut host, &mut cache, TO, 2),
        Ok(body(3, 0, false))
    );
    assert_eq!(rt; cache.flush(&mut host), Ok(()));
    assert_eq!(rt; host.bytes(TO).len(), 4096);
    assert_eq!(rt; host.bytes(FROM), from.as_slice());
    Ok(())
}

#[test]
fn equal_keys_go_by_id(rt: HostRuntime) -> Result<(), Fail> {
    let alloc = rt.alloc();
    let mut host = MemoryHost::new(alloc);
    let mut cache = Cache::new(alloc, 4)?;
    let mut sorter = Sorter::new(alloc);
    assert_eq!(rt;
        push_body(&mut host, &mut cache, FROM, 0, &body(7, 1, false), &kick(7)),
        Ok(())
    );
    assert_eq!(rt;
        push_body(&mut host, &mut cache, FROM, 1, &body(4, 2, false), &kick(4)),
        Ok(())
    );
    let both = reorder(&mut host, &mut cache, &mut sorter, &ByKey, FROM, TO, 2);
    assert_eq!(rt; both, Ok(()));
    assert_eq!(rt;
        body_at(&mut host, &mut cache, TO, 0),
        Ok(body(4, 2, false))
    );
    assert_eq!(rt;
        body_at(&mut host, &mut cache, TO, 1),
        Ok(body(7, 1, false))
    );
    assert_eq!(rt;
        push_body(&mut host, &mut cache, FROM, 2, &body(4, 3, false), &kick(4)),
        Ok(())
    );
    let page = PageName {
        file: FROM,
        page: 0,
    };
    let twice = reorder(&mut host, &mut cache, &mut sorter, &ByKey, FROM, TO, 3);
    assert_eq!(rt; twice, Err(OrderError::Damaged(page)));
    Ok(())
}

#[test]
fn pages_of_bodies_are_sorted(rt: HostRuntime) -> Result<(), Fail> {
    let alloc = rt.alloc();
    let mut host = MemoryHost::new(alloc);
    let mut cache = Cache::new(alloc, 4)?;
    let mut sorter = Sorter::new(alloc);
    for index in 0..130 {
        let next = body(index, (129 - index) * SIDE, false);
        assert_eq!(rt;
            push_body(&mut host, &mut cache, FROM, index, &next, &kick(0)),
            Ok(())
        );
    }
    assert_eq!(rt; cache.flush(&mut host), Ok(()));
    let from = Vec::from_slice(alloc, host.bytes(FROM))?;
    assert_eq!(rt; from.len(), 3 * 4096);
    assert_eq!(rt;
        reorder(&mut host, &mut cache, &mut sorter, &ByKey, FROM, TO, 130),
        Ok(())
    );
    for index in 0..130 {
        let next = body(129 - index, index * SIDE, false);
        assert_eq!(rt;
            body_at(&mut host, &mut cache, TO, index),
            Ok(next),
            "body {index}"
        );
    }
    assert_eq!(rt; cache.flush(&mut host), Ok(()));
    assert_eq!(rt; host.bytes(TO).len(), 3 * 4096);
    assert_eq!(rt; host.bytes(FROM), from.as_slice());
    let page = PageName {
        file: FROM,
        page: 1,
    };
    assert_eq!(rt; cache.put(&mut host, page, &[0; 4096]), Ok(()));
    assert_eq!(rt;
        reorder(&mut host, &mut cache, &mut sorter, &ByKey, FROM, TO, 130),
        Err(OrderError::Damaged(page))
    );
    Ok(())
}

#[test]
fn no_body_leaves_an_empty_file(rt: HostRuntime) -> Result<(), Fail> {
    let alloc = rt.alloc();
    let mut host = MemoryHost::new(alloc);
    host.with_file(TO, b"anything")?;
    let mut cache = Cache::new(alloc, 4)?;
    let mut sorter = Sorter::new(alloc);
    assert_eq!(rt;
        reorder(&mut host, &mut cache, &mut sorter, &ById, FROM, TO, 0),
        Ok(())
    );
    assert_eq!(rt; host.bytes(TO).len(), 0);
    Ok(())
}
