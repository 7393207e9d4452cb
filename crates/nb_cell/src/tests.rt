//! Tables with known answers.

ghost use Rattle.std.specs.Prelude.{◌≡◌, ◌<◌, ◌≤◌, IfSome};
ghost use Rattle.nb_cache.specs.InStep.{IsCachedFile, IsInStep};
ghost use Rattle.nb_record.specs.Records.{IsCell};

use crate::cell_error::CellError;
use crate::shown::ResidentPage;
use crate::table::{CellTable, MOST_BITS};
use nb_cache::Cache;
use nb_host::{Host, MemoryHost, PAGE_SIZE, PageName};
use nb_key::Key;
use nb_model::At;
use nb_record::{Cell, CellPage, Look, begin_cell_page, look, set_next};
use std::alloc::Global;
use std::process::Abort;
use std::test::Fail;

const FILE: u64 = 7;

/// What a look answers, in one number each: the key of a cell that is found, a page's number, or nothing.
#[derive(Clone, Copy, PartialEq, Eq, Debug)]
enum Answer {
    Found(u64),
    Next(u64),
    Wants(u64),
    Gone,
    Bad(u64),
}

fn name(page: u64) -> PageName
    ensures { result ≡ record { file = 7; page = page } }
{
    PageName { file: FILE, page }
}

/// A cell with this key.
fn cell(number: u64) -> Option<Cell>
    ensures { IfSome result IsCell }
{
    let key = Key::from_number(number)?;
    let _ = key.number();
    Some(Cell {
        key,
        mass: 1,
        centre: At { x: 2, y: 3, z: 4 },
        first: 0,
        count: 1,
        kids: 0,
    })
}

/// Inserts a cell for each key from one on and below another.
fn insert_keys<H: Host>(
    host: &mut H,
    cache: &mut Cache,
    table: &mut CellTable,
    from: u64,
    to: u64,
) -> Result<(), Fail>
    requires cached { IsCachedFile table.old.file }
    requires bits { table.old.bits ≤ MOST_BITS }
    requires in_step { IsInStep H.meaning cache.old host.old }
    ensures file { table.new.file ≡ table.old.file }
    ensures bits { table.new.bits ≡ table.old.bits }
    ensures in_step { IsInStep H.meaning cache.new host.new }
{
    for number in from..to {
        if table.pages >= 1 << 20 {
            return Err(Fail::new("a table of few pages"));
        }
        let cell = cell(number).ok_or("a key")?;
        table.insert(host, cache, &cell)?;
    }
    Ok(())
}

/// What a look for a key on a page answers where one page is shown.
fn look_at(cache: &Cache, shown: u64, number: u64, page: u64) -> Option<Answer> {
    let bytes = cache.lent(name(shown))?;
    let key = Key::from_number(number)?;
    let shown = ResidentPage { page: shown, bytes };
    match look(&shown, key, page) {
        Look::Found(cell) => Some(Answer::Found(cell.key().number())),
        Look::Next(next) => Some(Answer::Next(next)),
        Look::Wants(wanted) => Some(Answer::Wants(wanted)),
        Look::Gone => Some(Answer::Gone),
        Look::Bad(bad) => Some(Answer::Bad(bad)),
    }
}

/// How many cells a page of a file has, and its next page.
fn header(file: &[u8], page: usize) -> Option<(u64, u64)>
    requires { page < 64 }
{
    let at = page * PAGE_SIZE;
    if file.len() < at + PAGE_SIZE {
        return None;
    }
    let cells = CellPage::check(&file[at..at + PAGE_SIZE], page as u64).ok()?;
    Some((cells.count(), cells.next_page()))
}

#[test]
fn a_chain_of_two_pages(rt: HostRuntime) -> Result<(), Fail> {
    let alloc = rt.alloc();
    let mut host = MemoryHost::new(alloc);
    let mut cache = Cache::new(alloc, 4)?;
    let mut table = CellTable::make(&mut host, &mut cache, FILE, 0)?;
    assert_eq!(rt; cache.flush(&mut host), Ok(()));
    assert_eq!(rt; header(host.bytes(FILE), 0), Some((0, 0)));
    insert_keys(&mut host, &mut cache, &mut table, 1, 2)?;
    insert_keys(&mut host, &mut cache, &mut table, 8, 16)?;
    insert_keys(&mut host, &mut cache, &mut table, 64, 119)?;
    assert_eq!(rt;
        table,
        CellTable {
            file: FILE,
            bits: 0,
            pages: 2
        }
    );
    assert_eq!(rt; cache.flush(&mut host), Ok(()));
    assert_eq!(rt; host.bytes(FILE).len(), 2 * PAGE_SIZE);
    assert_eq!(rt; header(host.bytes(FILE), 0), Some((63, 1)));
    assert_eq!(rt; header(host.bytes(FILE), 1), Some((1, 0)));
    for (shown, key, page, answer) in [
        (0, 118, 0, Answer::Next(1)),
        (1, 118, 1, Answer::Found(118)),
        (0, 118, 1, Answer::Wants(1)),
        (0, 119, 0, Answer::Next(1)),
        (1, 119, 1, Answer::Gone),
        (0, 1, 0, Answer::Found(1)),
    ] {
        assert_eq!(rt;
            look_at(&cache, shown, key, page),
            Some(answer),
            "key {key}"
        );
    }
    Ok(())
}

#[test]
fn more_chains_than_pages_in_the_cache(rt: HostRuntime) -> Result<(), Fail> {
    let alloc = rt.alloc();
    let mut host = MemoryHost::new(alloc);
    let mut cache = Cache::new(alloc, 4)?;
    let mut table = CellTable::make(&mut host, &mut cache, FILE, 3)?;
    insert_keys(&mut host, &mut cache, &mut table, 8, 16)?;
    insert_keys(&mut host, &mut cache, &mut table, 64, 128)?;
    assert_eq!(rt; table.pages, 8);
    assert_eq!(rt; cache.flush(&mut host), Ok(()));
    assert_eq!(rt; host.bytes(FILE).len(), 8 * PAGE_SIZE);
    for page in 0..8 {
        assert_eq!(rt; header(host.bytes(FILE), page), Some((9, 0)), "page {page}");
    }
    Ok(())
}

/// What an insert of key 8 answers into a table of one page, and how many pages the table has then. Its file
/// holds these bytes, and the host calls with these numbers fail.
fn insert_on(
    alloc: Global,
    bytes: &[u8],
    failing: &[u64],
) -> Result<(Result<(), CellError>, u64), Fail> {
    let mut host = MemoryHost::new(alloc);
    host.with_file(FILE, bytes)?;
    host.fail_at(failing)?;
    let mut cache = Cache::new(alloc, 4)?;
    let mut table = CellTable {
        file: FILE,
        bits: 0,
        pages: 1,
    };
    let cell = cell(8).ok_or("a key")?;
    let answer = table.insert(&mut host, &mut cache, &cell);
    Ok((answer, table.pages))
}

#[test]
fn pages_that_are_damaged(rt: HostRuntime) -> Result<(), Fail> {
    let alloc = rt.alloc();
    let damaged = Err(CellError::Damaged(name(0)));
    let mut page = [0; PAGE_SIZE];
    let (answer, _) = insert_on(alloc, &page[1..], &[])?;
    assert_eq!(rt; answer, damaged, "a file that ends before its page does");
    begin_cell_page(&mut page, 1);
    let (answer, _) = insert_on(alloc, &page, &[])?;
    assert_eq!(rt; answer, damaged, "another page's number");
    begin_cell_page(&mut page, 0);
    set_next(&mut page, 1);
    let (answer, pages) = insert_on(alloc, &page, &[])?;
    assert_eq!(rt; answer, damaged, "a next page outside the table");
    assert_eq!(rt; pages, 1);
    Ok(())
}

#[test]
fn a_damaged_page_in_the_cache(rt: HostRuntime) -> Result<(), Fail> {
    let alloc = rt.alloc();
    let mut host = MemoryHost::new(alloc);
    let mut cache = Cache::new(alloc, 4)?;
    let mut page = [0; PAGE_SIZE];
    page[8] = 64;
    assert_eq!(rt; cache.put(&mut host, name(0), &page), Ok(()));
    let mut table = CellTable {
        file: FILE,
        bits: 0,
        pages: 1,
    };
    let cell = cell(8).ok_or("a key")?;
    let answer = table.insert(&mut host, &mut cache, &cell);
    assert_eq!(rt; answer, Err(CellError::Damaged(name(0))));
    Ok(())
}

#[test]
fn a_full_page_and_calls_that_fail(rt: HostRuntime) -> Result<(), Fail> {
    let alloc = rt.alloc();
    let mut page = [0; PAGE_SIZE];
    page[8] = 63;
    let (answer, pages) = insert_on(alloc, &page, &[])?;
    assert_eq!(rt; answer, Ok(()));
    assert_eq!(rt; pages, 2);
    // The page is read. The new one, and then the page that leads to it, wait in the cache.
    let (answer, pages) = insert_on(alloc, &page, &[1])?;
    assert_eq!(rt; answer, Err(CellError::Fault));
    assert_eq!(rt; pages, 1);
    let (answer, pages) = insert_on(alloc, &page, &[2])?;
    assert_eq!(rt; answer, Ok(()));
    assert_eq!(rt; pages, 2);
    Ok(())
}
