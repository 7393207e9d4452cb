//! The host on real files, in a fresh folder.

use super::FolderHost;
use crate::names::is_name;
use nb_cli::nbody;
use nb_host::{Host, HostError};
use std::process::Abort;
use std::rt::Files;
use std::test::Fail;
use std::{env, fs, process};

/// A parameter text.
const PARAMS: &[u8] =
    b"grav = 1000000000\ntheta_num = 1\ntheta_den = 2\nsoft = 1\nleaf = 8\nevery = 100\n";

/// A snapshot at time 0 of one body: id 7, mass 3, at (5, 5, 5), with velocity (1, 0, 0).
const INIT: &[u8; 96] = b"FNBSNAP1\x01\0\0\0\0\0\0\0\0\0\0\0\0\0\0\0\0\0\0\0\0\0\0\0\
    \x07\0\0\0\0\0\0\0\x03\0\0\0\0\0\0\0\x05\0\0\0\0\0\0\0\x05\0\0\0\0\0\0\0\
    \x05\0\0\0\0\0\0\0\x01\0\0\0\0\0\0\0\0\0\0\0\0\0\0\0\0\0\0\0\0\0\0\0";

/// The same body one tick later, at time 1 and at (6, 5, 5).
const ONCE: &[u8; 96] = b"FNBSNAP1\x01\0\0\0\0\0\0\0\x01\0\0\0\0\0\0\0\0\0\0\0\0\0\0\0\
    \x07\0\0\0\0\0\0\0\x03\0\0\0\0\0\0\0\x06\0\0\0\0\0\0\0\x05\0\0\0\0\0\0\0\
    \x05\0\0\0\0\0\0\0\x01\0\0\0\0\0\0\0\0\0\0\0\0\0\0\0\0\0\0\0\0\0\0\0";

/// Whether the file with this name holds these bytes.
fn holds<R: Files + AllocGlobal>(rt: &R, name: &str, bytes: &[u8]) -> Result<bool, Fail> {
    Ok(fs::read(rt, name)?.as_slice() == bytes)
}

/// What isn't there, and what a write of nothing and a cut don't make.
fn tries_absent<R: Abort + Files, H: Host>(rt: &R, host: &mut H) -> Result<(), Fail> {
    let mut into = [0u8; 4];
    host.write_at(9, 7, b"")?;
    host.cut(9, 0)?;
    assert_eq!(rt; host.len(9)?, 0);
    assert_eq!(rt; host.read_at(9, 0, &mut into)?, 0);
    assert!(rt; !fs::exists(rt, "track")?);
    Ok(())
}

/// A gap reads as zeros, a read stops where the file ends, and a cut makes a file only shorter.
fn tries_one_file<R: Abort + Files + AllocGlobal, H: Host>(
    rt: &R,
    host: &mut H,
) -> Result<(), Fail> {
    let mut into = [9u8; 8];
    host.write_at(9, 3, b"abc")?;
    assert_eq!(rt; host.read_at(9, 1, &mut into)?, 5);
    assert_eq!(rt; into.as_slice(), b"\0\0abc\x09\x09\x09".as_slice());
    host.cut(9, 4)?;
    host.cut(9, 5)?;
    assert_eq!(rt; host.len(9)?, 4);
    host.sync()?;
    assert!(rt; holds(rt, "track", b"\0\0\0a")?);
    Ok(())
}

/// More files than stay open, each under its own name.
fn tries_many_files<R: Abort + Files + AllocGlobal, H: Host>(
    rt: &R,
    host: &mut H,
) -> Result<(), Fail> {
    for file in 17..30 {
        host.write_at(file, 0, b"x")?;
    }
    host.sync()?;
    for file in 17..30 {
        assert_eq!(rt; host.len(file)?, 1);
    }
    assert!(rt; holds(rt, "snap.13.nbs", b"x")?);
    Ok(())
}

/// Which names of the folder the first sync takes.
fn tries_names<R: Abort>(rt: &R) {
    let taken = [
        "params",
        "bodies.1",
        "track",
        "snap.1.nbs",
        "snap.1099511627776.nbs",
    ];
    let others = [
        "snap.0.nbs",
        "snap.01.nbs",
        "snap.+1.nbs",
        "snap.1099511627777.nbs",
        "snap..nbs",
        "unused.10",
    ];
    for name in taken {
        assert!(rt; is_name(name), "{name}");
    }
    for name in others {
        assert!(rt; !is_name(name), "{name}");
    }
}

/// The program itself.
fn tries_once<R: Abort + Files + AllocGlobal, H: Host>(rt: &R, host: &mut H) -> Result<(), Fail> {
    host.write_at(0, 0, PARAMS)?;
    host.write_at(1, 0, INIT)?;
    assert_eq!(rt; nbody(rt.alloc(), &["once", "1"], host), 0);
    assert!(rt; holds(rt, "init.nbs", INIT)?);
    assert!(rt; holds(rt, "once.nbs", ONCE)?);
    Ok(())
}

#[test]
fn works_on_real_files(rt: HostRuntime) -> Result<(), Fail> {
    let mut folder = env::temp_dir(&rt)?;
    folder.push(format!(in rt.alloc(); "nbody-test-{}", process::id(rt.process()))?.as_str())?;
    fs::create_dir(&rt, folder.as_path())?;
    env::set_current_dir(&rt, folder.as_path())?;
    let mut host = FolderHost::new(rt, rt.stdout(), rt.stderr());
    tries_names(&rt);
    tries_absent(&rt, &mut host)?;
    tries_one_file(&rt, &mut host)?;
    tries_many_files(&rt, &mut host)?;
    tries_once(&rt, &mut host)?;
    assert_eq!(rt; host.faults, 0);

    // A folder in a file's place is a fault, which is counted.
    fs::create_dir(&rt, "journal")?;
    assert_eq!(rt; host.len(2), Err(HostError::Fault));
    assert_eq!(rt; host.faults, 1);

    fs::remove_dir_all(&rt, folder.as_path())?;
    Ok(())
}
