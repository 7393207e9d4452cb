//! Which snapshots are due.

ghost use Rattle.std.specs.Prelude.{◌≡◌, ◌↔◌, ◌⊎◌, IsTrue, IfOk, IfErr};
ghost use Rattle.nb_host.specs.Crashes.{Stays};
ghost use Rattle.nb_host.specs.Meaning.{Ran};
ghost use Rattle.nb_journal.specs.Counters.{Answers};
ghost use Rattle.nb_journal.specs.Finding.{IsFound};
ghost use Rattle.nb_journal.specs.Form.{IsJournal};
ghost use Rattle.nb_journal.specs.Offsets.{journal_file};
ghost use Rattle.nb_engine.specs.Due.{IsDueByCounters, TellsDue};
ghost use Rattle.nb_engine.specs.Histories.{History};
ghost use Rattle.nb_engine.specs.Refusal.{NeedsNoCause};
ghost use Rattle.nb_engine.specs.Shown.{IsOfShow};

use crate::refusal::Refusal;
use nb_host::Host;
use nb_journal::{Entry, Journal};

/// Whether a snapshot is due after a tick that is the journal's last entry.
pub(crate) fn is_due(journal: &Journal) -> bool
    ensures { IsTrue result ↔ IsDueByCounters journal.now }
{
    let every = journal.params().every;
    let ticks = journal.ticks();
    ticks > 0 && (ticks % every == 0 || journal.time() == journal.target())
}

/// Whether a snapshot is due after the last tick of the journal, whatever its last entry is: where that is a
/// leg, the tick before it ended the one before.
pub(crate) fn is_last_due<H: Host>(host: &mut H, journal: &Journal) -> Result<bool, Refusal>
    ensures due { IfOk result (λ due. IsTrue H.meaning.tells → (h : History)
        → Answers h.log journal.now → IsJournal h.log ((H.meaning.contents host.old).file journal_file)
        → TellsDue h due) }
    ensures cause { IfErr result (λ why. IsTrue H.meaning.tells
        → IsFound journal.now ((H.meaning.contents host.old).file journal_file) → NeedsNoCause why) }
    ensures refusals { IfErr result IsOfShow }
    ensures ran { Ran H.meaning Refusal.Device Stays host.old host.new result }
{
    if journal.ticks() == 0 {
        return Ok(false);
    }
    if is_due(journal) {
        return Ok(true);
    }
    let entries = journal.entries();
    if entries == 0 {
        return Ok(false);
    }
    match journal.entry(host, entries - 1)? {
        Entry::Leg(_) => Ok(true),
        Entry::Tick(..) => Ok(false),
    }
}
