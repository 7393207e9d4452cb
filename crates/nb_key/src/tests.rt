//! Keys with known numbers.

use crate::Key;
use std::test::Fail;

/// Half the side of the box.
const HALF: u64 = 1 << 39;

/// The greatest coordinate of the box.
const LAST: u64 = (1 << 40) - 1;

/// The side of the deepest cells.
const SIDE: u64 = 1 << 19;

#[test]
fn positions_have_their_morton_keys(rt: HostRuntime) -> Result<(), Fail> {
    let cases = [
        (0, 0, 0, 9223372036854775808),
        (HALF, 0, 0, 13835058055282163712),
        (0, SIDE, 0, 9223372036854775810),
        (0, SIDE - 1, 0, 9223372036854775808),
        (LAST, LAST, LAST, 18446744073709551615),
    ];
    for (x, y, z, want) in cases {
        assert!(rt; x <= LAST && y <= LAST && z <= LAST);
        let key = Key::of(x, y, z);
        assert_eq!(rt; key.number(), want);
        assert_eq!(rt; key.level(), 21);
    }
    Ok(())
}

#[test]
fn numbers_that_are_keys(rt: HostRuntime) -> Result<(), Fail> {
    for no_key in [0, 2, 16] {
        assert_eq!(rt; Key::from_number(no_key), None);
    }
    let root = Key::root();
    assert_eq!(rt; root.parent(), None);
    assert_eq!(rt; Key::default(), root);
    let corner = Key::from_number(15).ok_or("15 is a key")?;
    assert_eq!(rt; corner.parent(), Some(root));
    assert_eq!(rt; root.child(7), corner);
    assert_eq!(rt; (root.level(), corner.level()), (0, 1));
    Ok(())
}

#[test]
fn a_cell_is_a_range_of_keys(rt: HostRuntime) -> Result<(), Fail> {
    let root = Key::root();
    assert_eq!(rt; (root.first(), root.last()), (1 << 63, u64::MAX));
    let corner = root.child(7);
    assert_eq!(rt; (corner.first(), corner.last()), (15 << 60, u64::MAX));
    let cases = [
        (HALF, HALF, HALF, true),
        (LAST, LAST, LAST, true),
        (HALF - 1, HALF, HALF, false),
        (HALF, HALF, 0, false),
    ];
    for (x, y, z, want) in cases {
        assert!(rt; x <= LAST && y <= LAST && z <= LAST);
        assert_eq!(rt; corner.contains(x, y, z), want);
        assert!(rt; root.contains(x, y, z));
    }
    Ok(())
}
