//! What a folder's journal tells.

ghost use Rattle.std.specs.Prelude.{◌⊎◌, IsTrue, IfOk, IfErr};
ghost use Rattle.nb_host.specs.Crashes.{Stays};
ghost use Rattle.nb_host.specs.Meaning.{Ran};
ghost use Rattle.nb_journal.specs.Form.{Log, IsJournal};
ghost use Rattle.nb_journal.specs.Offsets.{journal_file};
ghost use Rattle.nb_engine.specs.Refusal.{NeedsNoCause};
ghost use Rattle.nb_engine.specs.Shown.{TellsLog, IsInReach, IsShowRefused, IsOfShow};

use crate::refusal::Refusal;
use nb_host::Host;
use nb_journal::{Opened, find};
use nb_model::Params;

/// What a folder's journal tells of its run.
#[derive(Clone, Copy, PartialEq, Eq, Debug)]
pub struct Shown {
    /// The time, in ticks.
    pub time: u64,
    /// How many ticks are done.
    pub ticks: u64,
    /// The target of the last leg, or the time at the start where there is no leg.
    pub target: u64,
    /// How many bodies there are.
    pub count: u64,
    /// How many of them are out.
    pub gone: u64,
    /// The parameters.
    pub params: Params,
}

/// Reads what the folder's journal tells. It only reads. NotStarted comes exactly where no run is started,
/// and Damaged, with the byte at which the journal is, exactly where it is damaged.
pub fn show<H: Host>(host: &mut H) -> Result<Shown, Refusal>
    ensures shown { IfOk result (λ shown. IsTrue H.meaning.tells
        → (log : Log) × IsJournal log ((H.meaning.contents host.old).file journal_file) × TellsLog log shown) }
    ensures reach { IfOk result IsInReach }
    ensures cause { IfErr result (λ why. IsTrue H.meaning.tells → NeedsNoCause why
        ⊎ IsShowRefused ((H.meaning.contents host.old).file journal_file) why) }
    ensures refusals { IfErr result IsOfShow }
    ensures ran { Ran H.meaning Refusal.Device Stays host.old host.new result }
{
    match find(host)? {
        Opened::Fresh => Err(Refusal::NotStarted),
        Opened::Made(journal) => Ok(Shown {
            time: journal.time(),
            ticks: journal.ticks(),
            target: journal.target(),
            count: journal.count(),
            gone: journal.gone(),
            params: journal.params(),
        }),
    }
}
