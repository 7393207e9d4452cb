//! A started journal.

ghost use Rattle.std.specs.Prelude.{◌≡◌, ◌≢◌, ◌+◌, ◌^◌, ◌<◌, ◌≤◌, [], ◌∷◌, length, IsTrue, ℕ, ◌↔◌, IfSome, None, Err, IfOk, OnOk};
ghost use Rattle.nb_host.specs.Crashes.{AgreesOutside, ImagesFollow, Stays};
ghost use Rattle.nb_host.specs.Image.{FileBecomes, IsOverwritten, IsTorn};
ghost use Rattle.nb_host.specs.Meaning.{IsDurable, Over, Ran, RanSyncing};
ghost use Rattle.nb_journal.specs.declared.entry.Entry.{Entry as Entries};
ghost use Rattle.nb_journal.specs.Counters.{Answers, AreInReach, counters_after, counters_of, log_under};
ghost use Rattle.nb_journal.specs.Entries.{IsNextEntry, toward};
ghost use Rattle.nb_journal.specs.Finding.{IsEntryAt, LacksEntry};
ghost use Rattle.nb_journal.specs.Form.{Log, IsLawful, IsCleanJournal, entry_bytes, with_entry};
ghost use Rattle.nb_journal.specs.Images.{entry_laid, entry_added, IsEntryTorn, IsCleanNow, Appends};
ghost use Rattle.nb_journal.specs.Laying.{Lays, IsEntryWritten};
ghost use Rattle.nb_journal.specs.Offsets.{journal_file, offset_of, page_end};

use crate::entry::Entry;
use crate::error::JournalError;
use crate::form::{
    COUNTS, ENTRIES_PER_PAGE, ENTRY_LENGTH, Heading, JOURNAL_FILE, offset_of, spell,
};
use crate::reading::{parse, spells};
use nb_host::{Host, HostError, PAGE_SIZE};
use nb_model::{MOST_TICKS, Params};
use std::marker::Model;

/// A started journal, as its counters: its entries stand in the file alone.
#[derive(Debug, Drop)]
pub struct Journal {
    pub(crate) params: Params,
    pub(crate) count: u64,
    pub(crate) begin_time: u64,
    pub(crate) entries: u64,
    pub(crate) ticks: u64,
    pub(crate) time: u64,
    pub(crate) target: u64,
    pub(crate) gone: u64,
}

impl Model for Journal {
    ghost use Rattle.nb_journal.specs.Counters.{Counters, AreInReach};

    ghost Value = { Counters };

    ghost view = { λ j. record {
      params = j.params;
      count = j.count;
      begin_time = j.begin_time;
      entries = j.entries;
      progress = record { ticks = j.ticks; time = j.time; target = j.target; gone = j.gone };
    } };

    ghost invariant = { λ j. AreInReach (record {
      params = j.params;
      count = j.count;
      begin_time = j.begin_time;
      entries = j.entries;
      progress = record { ticks = j.ticks; time = j.time; target = j.target; gone = j.gone };
    }) };
}

impl Journal {
    /// The journal of a heading, without entries.
    pub(crate) fn begun(heading: Heading) -> Journal
        requires { IsLawful (log_under heading) }
        ensures { result ≡ counters_of (log_under heading) }
    {
        Journal {
            params: heading.params,
            count: heading.count,
            begin_time: heading.time,
            entries: 0,
            ticks: 0,
            time: heading.time,
            target: heading.time,
            gone: heading.gone,
        }
    }

    /// The parameters of the run.
    pub fn params(&self) -> Params
        ensures value { result ≡ self.now.params }
        ensures reach { AreInReach self.now }
    {
        self.params
    }

    /// How many bodies there are.
    pub fn count(&self) -> u64
        ensures { result ≡ self.now.count }
    {
        self.count
    }

    /// The time at the start, in ticks.
    pub fn begin_time(&self) -> u64
        ensures { result ≡ self.now.begin_time }
    {
        self.begin_time
    }

    /// How many entries there are.
    pub fn entries(&self) -> u64
        ensures { result ≡ self.now.entries }
    {
        self.entries
    }

    /// How many ticks are done.
    pub fn ticks(&self) -> u64
        ensures { result ≡ self.now.progress.ticks }
    {
        self.ticks
    }

    /// The time, in ticks.
    pub fn time(&self) -> u64
        ensures { result ≡ self.now.progress.time }
    {
        self.time
    }

    /// The target of the last leg, or the time at the start where there is no leg.
    pub fn target(&self) -> u64
        ensures { result ≡ self.now.progress.target }
    {
        self.target
    }

    /// How many bodies are out.
    pub fn gone(&self) -> u64
        ensures { result ≡ self.now.progress.gone }
    {
        self.gone
    }

    /// Adds an entry: it is laid behind its gate, and the gate opens when all that was written before, in
    /// every file, is durable. A refusal hands nothing back. The journal then has the entry or hasn't, and is
    /// to be found again.
    pub fn append<H: Host>(self, host: &mut H, entry: Entry) -> Result<Journal, HostError>
        requires next { IsNextEntry self.count self.progress entry }
        ensures counters { IfOk result (λ journal. journal ≡ counters_after entry self) }
        ensures added { OnOk result ((log : Log) → Answers log self → IsTrue H.meaning.tells
            → IsCleanJournal log ((H.meaning.contents host.old).file journal_file)
            → IsCleanJournal (with_entry log entry) ((H.meaning.contents host.new).file journal_file)) }
        ensures written { OnOk result (IsTrue H.meaning.tells → (H.meaning.contents host.new).file journal_file
            ≡ entry_added self.entries entry ((H.meaning.contents host.old).file journal_file)) }
        ensures durable { OnOk result (IsDurable H.meaning host.new) }
        ensures images { (log : Log) → Answers log self → IsCleanNow H.meaning log host.old
            → ImagesFollow H.meaning.crashes host.old host.new
            (Appends log entry (H.meaning.contents host.old)) }
        ensures ran { RanSyncing H.meaning 2 HostError.Fault
            (FileBecomes journal_file (IsEntryTorn self.entries)) host.old host.new result }
    {
        let entries = self.entries;
        let journal = self.with(entry);
        lay(host, entries, entry)?;
        host.sync()?;
        open_gate(host, offset_of(entries), COUNTS)?;
        Ok(journal)
    }

    /// Entry number `index`, from 0 on, as it stands in the file.
    pub fn entry<H: Host>(&self, host: &mut H, index: u64) -> Result<Entry, JournalError>
        requires { index < self.now.entries }
        ensures entry { IfOk result (λ entry. IsTrue H.meaning.tells
            → IsEntryAt index self.now ((H.meaning.contents host.old).file journal_file) entry) }
        ensures damaged { (offset : ℕ) → result ≡ Err (JournalError.Damaged offset)
            → LacksEntry index self.now offset H.meaning.tells
            ((H.meaning.contents host.old).file journal_file) }
        ensures ran { Ran H.meaning JournalError.Fault Stays host.old host.new result }
    {
        let _entries = self.entries;
        let offset = offset_of(index);
        let mut bytes = [0; ENTRY_LENGTH];
        let got = host.read_at(JOURNAL_FILE, offset, &mut bytes)?;
        if got < ENTRY_LENGTH {
            return Err(JournalError::Damaged(offset));
        }
        let entry = parse(&bytes);
        if !spells(entry, &bytes) {
            return Err(JournalError::Damaged(offset));
        }
        Ok(entry)
    }

    /// The lawful next entry that these are the bytes of, if there is one.
    pub(crate) fn next(&self, bytes: &[u8; ENTRY_LENGTH]) -> Option<Entry>
        ensures some { IfSome result (λ entry. IsNextEntry self.now.count self.now.progress entry
            × (bytes.now ≡ entry_bytes entry)) }
        ensures none { result ≡ None → (entry : Entries)
            → IsNextEntry self.now.count self.now.progress entry → bytes.now ≡ entry_bytes entry → ⊥ }
    {
        let _count = self.count;
        let entry = parse(bytes);
        if !self.allows(entry) {
            return None;
        }
        if !spells(entry, bytes) {
            return None;
        }
        Some(entry)
    }

    /// Whether the entry is a lawful next one.
    pub(crate) fn allows(&self, entry: Entry) -> bool
        ensures { IsTrue result ↔ IsNextEntry self.now.count self.now.progress entry }
    {
        match entry {
            Entry::Leg(target) => {
                self.time == self.target
                    && target != self.time
                    && self.time.abs_diff(target) <= MOST_TICKS - self.ticks
            }
            Entry::Tick(number, gone) => {
                self.time != self.target
                    && number == self.ticks + 1
                    && self.gone <= gone
                    && gone <= self.count
            }
        }
    }

    /// The counters after the entry.
    pub(crate) fn with(self, entry: Entry) -> Journal
        requires { IsNextEntry self.count self.progress entry }
        ensures counters { result ≡ counters_after entry self }
    {
        let mut journal = self;
        journal.entries += 1;
        match entry {
            Entry::Leg(target) => journal.target = target,
            Entry::Tick(number, gone) => {
                journal.ticks = number;
                journal.time = time_toward(journal.time, journal.target);
                journal.gone = gone;
            }
        }
        journal
    }
}

/// The time after a tick toward the target.
fn time_toward(time: u64, target: u64) -> u64
    requires { time ≢ target }
    ensures { result ≡ toward time target }
{
    if time < target { time + 1 } else { time - 1 }
}

/// Lays an entry behind its gate. Where it is the last of its page, the next page becomes zeros.
fn lay<H: Host>(host: &mut H, entries: u64, entry: Entry) -> Result<(), HostError>
    requires few { entries < 2 ^ 42 }
    ensures laid { OnOk result (IsTrue H.meaning.tells
        → offset_of (page_end entries) ≤ length ((H.meaning.contents host.old).file journal_file)
        → IsEntryWritten entries entry ((H.meaning.contents host.new).file journal_file)) }
    ensures written { OnOk result (IsTrue H.meaning.tells → (H.meaning.contents host.new).file journal_file
        ≡ entry_laid entries entry ((H.meaning.contents host.old).file journal_file)) }
    ensures ran { Ran H.meaning HostError.Fault (Lays entries) host.old host.new result }
{
    let bytes = spell(entry);
    host.write_at(JOURNAL_FILE, offset_of(entries) + 1, &bytes[1..])?;
    if entries % ENTRIES_PER_PAGE != ENTRIES_PER_PAGE - 1 {
        return Ok(());
    }
    host.write_at(JOURNAL_FILE, offset_of(entries + 1), &[0; PAGE_SIZE])?;
    Ok(())
}

/// Writes a gate, and makes it durable.
pub(crate) fn open_gate<H: Host>(host: &mut H, offset: u64, gate: u8) -> Result<(), HostError>
    requires { offset < 2 ^ 60 }
    ensures opened { OnOk result (Over H.meaning (FileBecomes journal_file (IsOverwritten offset (gate ∷ [])))
        host.old host.new) }
    ensures durable { OnOk result (IsDurable H.meaning host.new) }
    ensures ran { RanSyncing H.meaning 1 HostError.Fault (FileBecomes journal_file (IsTorn offset 1)) host.old
        host.new result }
{
    host.write_at(JOURNAL_FILE, offset, &[gate])?;
    host.sync()?;
    Ok(())
}
