//! Laws of journals. Each is a function that does nothing: its contract is the law.

ghost use Rattle.std.specs.Prelude.{◌≡◌, ◌⊎◌, ℕ, List, IsTrue};
ghost use Rattle.nb_host.specs.Crashes.{ImagesFollow};
ghost use Rattle.nb_host.specs.Image.{KeepsFile};
ghost use Rattle.nb_host.specs.Meaning.{Leads, IsDurable};
ghost use Rattle.nb_journal.specs.declared.entry.Entry.{Entry};
ghost use Rattle.nb_journal.specs.Counters.{counters_after, counters_of};
ghost use Rattle.nb_journal.specs.Form.{Log, IsFresh, IsJournal, IsCleanJournal, IsDamagedAt, with_entry};
ghost use Rattle.nb_journal.specs.Images.{prepared, IsFreshNow, IsPrepared, IsCleanNow, StaysFresh};
ghost use Rattle.nb_journal.specs.Offsets.{journal_file, page_length, entry_length, entries_per_page, started_gate, entry_gate};

use crate::form::{COUNTS, ENTRIES_PER_PAGE, ENTRY_LENGTH, JOURNAL_FILE, PAGE_LENGTH, STARTED};
use nb_host::Host;

/// The numbers of the code are those of the definitions.
pub fn law_numbers()
    ensures file { (JOURNAL_FILE ≡ 2) × (journal_file ≡ 2) }
    ensures page { (PAGE_LENGTH ≡ 4096) × (page_length ≡ 4096) }
    ensures entry { (ENTRY_LENGTH ≡ 32) × (entry_length ≡ 32) }
    ensures entries { (ENTRIES_PER_PAGE ≡ 128) × (entries_per_page ≡ 128) }
    ensures started { (STARTED ≡ 83) × (started_gate ≡ 83) }
    ensures counts { (COUNTS ≡ 71) × (entry_gate ≡ 71) }
{}

/// A file is the journal of one log at most.
pub fn law_one_journal()
    ensures { (a b : Log) (file : List ℕ) → IsJournal a file → IsJournal b file → a ≡ b }
{}

/// A damaged file is so at one offset.
pub fn law_one_damage()
    ensures { (a b : ℕ) (file : List ℕ) → IsDamagedAt a file → IsDamagedAt b file → a ≡ b }
{}

/// No journal is damaged.
pub fn law_not_both()
    ensures { (log : Log) (offset : ℕ) (file : List ℕ) → IsJournal log file → IsDamagedAt offset file → ⊥ }
{}

/// A file in which no journal is started is neither a journal nor damaged.
pub fn law_fresh_alone()
    ensures { (log : Log) (offset : ℕ) (file : List ℕ) → IsFresh file
        → IsJournal log file ⊎ IsDamagedAt offset file → ⊥ }
{}

/// Each file is fresh, the journal of a log, or damaged at an offset.
pub fn law_every_file()
    ensures { (file : List ℕ) → IsFresh file
        ⊎ (((log : Log) × IsJournal log file) ⊎ ((offset : ℕ) × IsDamagedAt offset file)) }
{}

/// What a journal keeps of its log with one more entry is what it kept before, with that entry counted.
pub fn law_counters()
    ensures { (log : Log) (entry : Entry) → counters_after entry (counters_of log) ≡ counters_of (with_entry log entry) }
{}

/// What the calls that write a journal need of its file, that no journal is started, that one is laid down,
/// and that one is clean and durable, stays through calls that spare the file: those on other files, a sync,
/// and a say (`nb_host`'s `law_file_stays`).
pub fn law_kept<H: Host>()
    ensures fresh { (old new : H) → Leads H.meaning (KeepsFile journal_file) old new
        → IsFreshNow H.meaning old → IsFreshNow H.meaning new }
    ensures prepared { (log : Log) (old new : H) → Leads H.meaning (KeepsFile journal_file) old new
        → IsPrepared H.meaning log old → IsPrepared H.meaning log new }
    ensures ready { (log : Log) (old new : H) → Leads H.meaning (KeepsFile journal_file) old new
        → IsCleanNow H.meaning log old → IsCleanNow H.meaning log new }
{}

/// What `prepare` says of its file is what `start_gate` needs, and what `start_gate` and `append` say is what
/// `append` needs.
pub fn law_ready<H: Host>()
    ensures prepared { (log : Log) (old new : H) → ImagesFollow H.meaning.crashes old new StaysFresh
        → (IsTrue H.meaning.tells → (H.meaning.contents new).file journal_file ≡ prepared log)
        → IsPrepared H.meaning log new }
    ensures ready { (log : Log) (host : H)
        → (IsTrue H.meaning.tells → IsCleanJournal log ((H.meaning.contents host).file journal_file))
        → IsDurable H.meaning host → IsCleanNow H.meaning log host }
{}
