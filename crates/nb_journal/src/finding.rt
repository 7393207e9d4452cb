//! How a journal is found.

ghost use Rattle.std.specs.Prelude.{◌≡◌, ◌≢◌, ℕ, ◌+◌, ◌%◌, ◌^◌, ◌<◌, ◌≤◌, List, length, IsTrue, Err, OnOk};
ghost use Rattle.nb_host.specs.Crashes.{Stays};
ghost use Rattle.nb_host.specs.Meaning.{Ran};
ghost use Rattle.nb_journal.specs.Finding.{Finds};
ghost use Rattle.nb_journal.specs.Form.{IsStarted};
ghost use Rattle.nb_journal.specs.Offsets.{journal_file, offset_of, page_end};
ghost use Rattle.nb_journal.specs.Reading.{HoldsPage, IsReadTo, FindsRest};

use crate::error::JournalError;
use crate::form::{ENTRIES_PER_PAGE, ENTRY_LENGTH, JOURNAL_FILE, PAGE_LENGTH, STARTED, offset_of};
use crate::heading::said;
use crate::journal::Journal;
use crate::reading::{counts, slot};
use nb_host::{Host, PAGE_SIZE};

/// What the journal's file is.
#[derive(Debug, Drop)]
pub enum Opened {
    /// No journal is started.
    Fresh,
    /// The journal.
    Made(Journal),
}

/// Reads the journal, a page at a time. It only reads, and damage is told with its offset in the file.
pub fn find<H: Host>(host: &mut H) -> Result<Opened, JournalError>
    ensures found { IsTrue H.meaning.tells
        → Finds ((H.meaning.contents host.old).file journal_file) result }
    ensures ran { Ran H.meaning JournalError.Fault Stays host.old host.new result }
{
    let len = host.len(JOURNAL_FILE)?;
    if len <= PAGE_LENGTH {
        return Ok(Opened::Fresh);
    }
    let mut page = [0; PAGE_SIZE];
    let got = host.read_at(JOURNAL_FILE, 0, &mut page)?;
    if got < PAGE_SIZE {
        return Ok(Opened::Fresh);
    }
    if page[0] != STARTED {
        return Ok(Opened::Fresh);
    }
    let heading = match said(&page) {
        Some(heading) => heading,
        None => return Err(JournalError::Damaged(0)),
    };
    match read_entries(host, len, Journal::begun(heading)) {
        Ok(journal) => Ok(Opened::Made(journal)),
        Err(error) => Err(error),
    }
}

/// Reads the entries of a started journal, up to the first whose gate is shut.
fn read_entries<H: Host>(host: &mut H, len: u64, journal: Journal) -> Result<Journal, JournalError>
    requires { journal.entries ≡ 0 }
    ensures found { (file : List ℕ) → IsTrue H.meaning.tells
        → (H.meaning.contents host.old).file journal_file ≡ file → len ≡ length file → IsStarted file
        → IsReadTo file journal → FindsRest file result }
    ensures ran { Ran H.meaning JournalError.Fault Stays host.old host.new result }
{
    let mut journal = journal;
    let mut page = [0; PAGE_SIZE];
    'entries: loop {
        let entries = journal.entries;
        match fill(host, entries, len, &mut page) {
            Ok(()) => {}
            Err(error) => return Err(error),
        }
        let bytes = slot(&page, (entries % ENTRIES_PER_PAGE) as usize * ENTRY_LENGTH);
        if !counts(bytes[0]) {
            return Ok(journal);
        }
        let entry = match journal.next(&bytes) {
            Some(entry) => entry,
            None => return Err(JournalError::Damaged(offset_of(entries))),
        };
        journal = journal.with(entry);
    }
}

/// Reads the page that begins with entry number `entries`, where one does.
fn fill<H: Host>(
    host: &mut H,
    entries: u64,
    len: u64,
    page: &mut [u8; PAGE_SIZE],
) -> Result<(), JournalError>
    requires { entries < 2 ^ 42 }
    ensures held { OnOk result ((file : List ℕ) → IsTrue H.meaning.tells
        → (H.meaning.contents host.old).file journal_file ≡ file → len ≡ length file
        → (entries % 128 ≢ 0 → HoldsPage entries file page.old) → HoldsPage entries file page.new) }
    ensures within { OnOk result ((entries % 128 ≢ 0 → offset_of (page_end entries) ≤ len)
        → offset_of (page_end entries) ≤ len) }
    ensures damaged { (offset : ℕ) → result ≡ Err (JournalError.Damaged offset)
        → (offset ≡ offset_of entries) × (entries % 128 ≡ 0) × (len < offset + 4096) }
    ensures ran { Ran H.meaning JournalError.Fault Stays host.old host.new result }
{
    if entries % ENTRIES_PER_PAGE != 0 {
        return Ok(());
    }
    let offset = offset_of(entries);
    if len < offset + PAGE_LENGTH {
        return Err(JournalError::Damaged(offset));
    }
    host.read_at(JOURNAL_FILE, offset, page)?;
    Ok(())
}
