//! Which words are which command.

use super::*;
use std::process::Abort;
use std::test::Fail;

/// The pace of the words that don't say it.
const USUAL: Pace = Pace {
    pages: 256,
    walks: 64,
};

fn paced(pages: u64, walks: u64) -> Pace {
    Pace { pages, walks }
}

/// Looks whether the words are this command, or none.
fn check(rt: &impl Abort, alloc: Global, words: &[&str], want: Option<Job>) {
    let found = read_words(alloc, words);
    assert!(rt; found == want.ok_or(WordsError::Refused));
}

#[test]
fn commands(rt: HostRuntime) -> Result<(), Fail> {
    let alloc = rt.alloc();
    check(&rt, alloc, &["start"], Some(Job::Start(256)));
    check(&rt, alloc, &["start", "--pages", "4"], Some(Job::Start(4)));
    check(
        &rt,
        alloc,
        &["go", "007", "--walks=1"],
        Some(Job::Go(7, paced(256, 1))),
    );
    check(
        &rt,
        alloc,
        &[
            "go",
            "--pages=262144",
            "--walks",
            "1024",
            "18446744073709551615",
        ],
        Some(Job::Go(u64::MAX, paced(262_144, 1024))),
    );
    check(&rt, alloc, &["go", "--", "5"], Some(Job::Go(5, USUAL)));
    check(
        &rt,
        alloc,
        &["resume", "--walks=2", "--pages=4"],
        Some(Job::Resume(paced(4, 2))),
    );
    check(&rt, alloc, &["show"], Some(Job::Show));
    check(&rt, alloc, &["show", "--"], Some(Job::Show));
    check(
        &rt,
        alloc,
        &["once", "00000000000000000001"],
        Some(Job::Once(1)),
    );
    check(
        &rt,
        alloc,
        &["make", "1", "16777216"],
        Some(Job::Make(1, 16_777_216)),
    );
    check(
        &rt,
        alloc,
        &["demo", "7", "--pages=16", "2000", "3", "--walks", "64"],
        Some(Job::Demo(7, 2000, 3, paced(16, 64))),
    );
    check(
        &rt,
        alloc,
        &["demo", "--", "0", "0", "0"],
        Some(Job::Demo(0, 0, 0, USUAL)),
    );
    Ok(())
}

#[test]
fn no_commands(rt: HostRuntime) -> Result<(), Fail> {
    let alloc = rt.alloc();
    let refused: [&[&str]; 36] = [
        &[],
        &["go"],
        &["go", "-5"],
        &["go", "+5"],
        &["show", "1"],
        &["go", "1", "--pages", "4", "--pages", "4"],
        &["--pages", "4", "go", "1"],
        &["start", "--walks", "4"],
        &["make", "1", "16777217"],
        &["go", "1", "--pages", "3"],
        &["go", "1", "--pages", "262145"],
        &["go", "1", "--walks", "0"],
        &["go", "1", "--walks", "1025"],
        &["go", "1", "--pages"],
        &["go", "1", "--pages="],
        &["go", "1", "--pages", "--", "4"],
        &["go", "1", "--pages", "--walks", "4"],
        &["go", "1", "--pages=4", "--pages", "4"],
        &["go", "1", "--page", "4"],
        &["go", "1", "--pages=4=4"],
        &["go", "1", "-p", "4"],
        &["go", "1", "-"],
        &["go", "1", "2"],
        &["go", "18446744073709551616"],
        &["go", "000000000000000000001"],
        &["go", ""],
        &["show", "--", "--"],
        &["show", "--pages", "4"],
        &["once", "1", "--pages", "4"],
        &["make", "1"],
        &["demo", "7", "2000"],
        &["demo", "7", "16777217", "3"],
        &["demo", "7", "2000", "3", "4"],
        &["-h"],
        &["go", "--help"],
        &["help"],
    ];
    for words in refused {
        check(&rt, alloc, words, None);
    }
    Ok(())
}
