//! How a session that runs ticks begins: it finds its journal, takes its memory, and finishes what is due.

ghost use Rattle.std.specs.Prelude.{◌≡◌, ◌⊎◌, ℕ, IsTrue, IfOk, IfErr, OnOk};
ghost use Rattle.nb_host.specs.Crashes.{AgreesOutside, Stays};
ghost use Rattle.nb_host.specs.Meaning.{IsDurable, Leads, Ran};
ghost use Rattle.nb_journal.specs.Finding.{IsFound};
ghost use Rattle.nb_journal.specs.Form.{Log, IsJournal};
ghost use Rattle.nb_journal.specs.Offsets.{journal_file};
ghost use Rattle.nb_engine.specs.Frame.{EachImage, RanSession};
ghost use Rattle.nb_engine.specs.Histories.{History, IsHistory};
ghost use Rattle.nb_engine.specs.Refusal.{NeedsNoCause};
ghost use Rattle.nb_engine.specs.Represents.{RepresentsRun};
ghost use Rattle.nb_engine.specs.Sessions.{IsPace, OpenLeads, IsSlotDamaged};
ghost use Rattle.nb_engine.specs.Shown.{IsShowRefused, IsOfShow};
ghost use Rattle.nb_engine.specs.Snapshots.{snapshot_files};
ghost use Rattle.nb_engine.specs.Steps.{IsFlushed, HoldsDueSnapshots, GoesOn, HasPlayed};

use crate::due::is_last_due;
use crate::going::Pace;
use crate::refusal::Refusal;
use crate::snapshot::finish;
use crate::workspace::Workspace;
use nb_host::Host;
use nb_journal::{Journal, Opened, find};
use std::alloc::Global;

/// A session that is begun: its journal, and what its ticks work with.
#[derive(Drop)]
pub(crate) struct Session {
    pub(crate) journal: Journal,
    pub(crate) work: Workspace,
}

/// Begins a session: it finds the journal, takes all memory for pages and walks, and finishes the snapshot of
/// the last tick, where that is due.
pub(crate) fn open<H: Host>(alloc: Global, host: &mut H, pace: Pace) -> Result<Session, Refusal>
    requires pace { IsPace pace }
    requires durable { IsDurable H.meaning host.old }
    ensures settled { IfOk result (λ session. IsFlushed H.meaning session.work.cache host.new) }
    ensures pages { IfOk result (λ session. session.work.cache.pages ≡ pace.pages) }
    ensures walks { IfOk result (λ session. session.work.pool.room ≡ pace.walks) }
    ensures durable { OnOk result (IsDurable H.meaning host.new) }
    ensures found { IfOk result (λ session. IsTrue H.meaning.tells
        → IsFound session.journal ((H.meaning.contents host.old).file journal_file)) }
    ensures opened { IfOk result (λ session. IsTrue H.meaning.tells → (h : History) → IsHistory h
        → RepresentsRun h (H.meaning.contents host.old)
        → HasPlayed H.meaning 0 h (H.meaning.contents host.old) session.journal host.new
        × HoldsDueSnapshots H.meaning h host.new) }
    ensures images { (h : History) → IsHistory h
        → RepresentsRun h (H.meaning.contents host.old)
        → EachImage H.meaning (GoesOn 0 h (H.meaning.contents host.old)) host.old host.new }
    ensures cause { IfErr result (λ why. IsTrue H.meaning.tells → NeedsNoCause why
        ⊎ IsShowRefused ((H.meaning.contents host.old).file journal_file) why
        ⊎ IsSlotDamaged (H.meaning.contents host.old).file why) }
    ensures refusals { IfErr result IsOfShow }
    ensures unsynced { IsTrue H.meaning.tells
        → ((log : Log) → IsJournal log ((H.meaning.contents host.old).file journal_file) → ⊥)
        → H.meaning.tally host.new ≡ H.meaning.tally host.old }
    ensures ran { RanSession H.meaning OpenLeads host.old host.new result }
{
    let journal = find_journal(host)?;
    let mut work = Workspace::new(alloc, pace)?;
    let due = is_last_due(host, &journal)?;
    finish(host, &mut work, &journal, due)?;
    Ok(Session { journal, work })
}

/// The journal of the run that is started.
fn find_journal<H: Host>(host: &mut H) -> Result<Journal, Refusal>
    ensures found { IfOk result (λ journal. IsTrue H.meaning.tells
        → IsFound journal ((H.meaning.contents host.old).file journal_file)) }
    ensures cause { IfErr result (λ why. IsTrue H.meaning.tells → NeedsNoCause why
        ⊎ IsShowRefused ((H.meaning.contents host.old).file journal_file) why) }
    ensures refusals { IfErr result IsOfShow }
    ensures ran { Ran H.meaning Refusal.Device Stays host.old host.new result }
{
    match find(host)? {
        Opened::Fresh => Err(Refusal::NotStarted),
        Opened::Made(journal) => Ok(journal),
    }
}
