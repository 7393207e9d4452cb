//! The sessions `go` and `resume`, which run ticks.

ghost use Rattle.std.specs.Prelude.{◌≡◌, ◌⊎◌, IsTrue, None, IfSome, IfOk, IfErr, OnOk};
ghost use Rattle.nb_engine.specs.declared.refusal.Refusal.{Refusal as Refusals};
ghost use Rattle.nb_host.specs.Crashes.{AgreesOutside};
ghost use Rattle.nb_host.specs.Meaning.{IsDurable, Leads};
ghost use Rattle.nb_journal.specs.Finding.{IsFound};
ghost use Rattle.nb_journal.specs.Form.{Log, IsJournal, progress_of};
ghost use Rattle.nb_journal.specs.Offsets.{journal_file};
ghost use Rattle.nb_engine.specs.Frame.{EachImage, KeepsOutsideRun, RanSession};
ghost use Rattle.nb_engine.specs.Histories.{History, IsHistory};
ghost use Rattle.nb_engine.specs.Refusal.{NeedsNoCause};
ghost use Rattle.nb_engine.specs.Represents.{RepresentsRun};
ghost use Rattle.nb_engine.specs.Sessions.{IsPace, ticks_left, ticks_to, aimed_at, IsLed, SessionLeads, GoLeads, ResumeLeads, IsNoLeg, IsGoRefused, IsGoReady, IsResumeReady, IsSlotDamaged, IsOfGo, IsOfLeg, IsBroughtUp, IsOfResume};
ghost use Rattle.nb_engine.specs.Shown.{IsShowRefused};
ghost use Rattle.nb_engine.specs.Snapshots.{snapshot_files};

use crate::laws::law_times;
use crate::opening::{Session, open};
use crate::refusal::Refusal;
use crate::ticking::run_leg;
use nb_host::Host;
use nb_journal::{Entry, Journal};
use nb_model::MOST_TICKS;
use std::alloc::Global;

/// What a session may take: how many pages are in memory, from 4 to 2^18, and how many walks go on at a time,
/// from 1 to 1024. No result depends on either.
#[derive(Clone, Copy, PartialEq, Eq, Debug)]
pub struct Pace {
    /// How many pages of bodies and cells are in memory, of 4096 bytes each.
    pub pages: u64,
    /// How many walks through the tree go on at a time.
    pub walks: u64,
}

/// Where a run is.
#[derive(Clone, Copy, PartialEq, Eq, Debug)]
pub struct Done {
    /// The time, in ticks.
    pub time: u64,
    /// How many ticks are done since the start.
    pub ticks: u64,
    /// How many bodies have left the box by that time.
    pub gone: u64,
}

/// Leads the run to the time `target` by a leg of its own, unless it is there. The snapshot of the last tick is
/// finished first, where it is due. It says the line of each tick, when that is durable.
pub fn go<H: Host>(alloc: Global, host: &mut H, pace: Pace, target: u64) -> Result<Done, Refusal>
    requires pace { IsPace pace }
    requires durable { IsDurable H.meaning host.old }
    ensures done { IfOk result (λ done. IsTrue H.meaning.tells → (h : History) → IsHistory h
        → RepresentsRun h (H.meaning.contents host.old)
        → IsLed (ticks_to target h) (aimed_at target h) (H.meaning.contents host.old) done
        (H.meaning.contents host.new)) }
    ensures there { IfOk result (λ done. done.time ≡ target) }
    ensures ready { OnOk result (IsTrue H.meaning.tells → IsGoReady target (H.meaning.contents host.old).file) }
    ensures durable { OnOk result (IsDurable H.meaning host.new) }
    ensures cause { IfErr result (λ why. IsTrue H.meaning.tells → NeedsNoCause why
        ⊎ IsGoRefused target (H.meaning.contents host.old).file why
        ⊎ IsSlotDamaged (H.meaning.contents host.old).file why) }
    ensures refusals { IfErr result IsOfGo }
    ensures refused { IfErr result (λ why. IsOfLeg why → IsBroughtUp H.meaning host.old host.new) }
    ensures unsynced { IsTrue H.meaning.tells
        → ((log : Log) → IsJournal log ((H.meaning.contents host.old).file journal_file) → ⊥)
        → H.meaning.tally host.new ≡ H.meaning.tally host.old }
    ensures ran { RanSession H.meaning (GoLeads H.meaning.crashes.is_honest target) host.old host.new result }
{
    law_times();
    let Session { journal, mut work } = open(alloc, host, pace)?;
    if let Some(why) = no_leg(&journal, target) {
        return Err(why);
    }
    if target == journal.time() {
        return Ok(done_of(&journal));
    }
    let journal = journal.append(host, Entry::Leg(target))?;
    let journal = run_leg(host, &mut work, journal)?;
    Ok(done_of(&journal))
}

/// Runs the last leg to its end, where it isn't. The snapshot of the last tick is finished first, where it is
/// due. It says the line of each tick, when that is durable.
pub fn resume<H: Host>(alloc: Global, host: &mut H, pace: Pace) -> Result<Done, Refusal>
    requires pace { IsPace pace }
    requires durable { IsDurable H.meaning host.old }
    ensures done { IfOk result (λ done. IsTrue H.meaning.tells → (h : History) → IsHistory h
        → RepresentsRun h (H.meaning.contents host.old)
        → IsLed (ticks_left (progress_of h.log)) h (H.meaning.contents host.old) done
        (H.meaning.contents host.new)) }
    ensures there { IfOk result (λ done. IsTrue H.meaning.tells → (log : Log)
        → IsJournal log ((H.meaning.contents host.old).file journal_file) → done.time ≡ (progress_of log).target) }
    ensures ready { OnOk result (IsTrue H.meaning.tells → IsResumeReady (H.meaning.contents host.old).file) }
    ensures durable { OnOk result (IsDurable H.meaning host.new) }
    ensures cause { IfErr result (λ why. IsTrue H.meaning.tells → NeedsNoCause why
        ⊎ IsShowRefused ((H.meaning.contents host.old).file journal_file) why
        ⊎ IsSlotDamaged (H.meaning.contents host.old).file why) }
    ensures refusals { IfErr result IsOfResume }
    ensures unsynced { IsTrue H.meaning.tells
        → ((log : Log) → IsJournal log ((H.meaning.contents host.old).file journal_file) → ⊥)
        → H.meaning.tally host.new ≡ H.meaning.tally host.old }
    ensures ran { RanSession H.meaning (ResumeLeads H.meaning.crashes.is_honest) host.old host.new result }
{
    law_times();
    let Session { journal, mut work } = open(alloc, host, pace)?;
    let journal = run_leg(host, &mut work, journal)?;
    Ok(done_of(&journal))
}

/// Why the journal allows no leg to this time, if it doesn't: the last one isn't at its end, or the run would
/// have too many ticks.
fn no_leg(journal: &Journal, target: u64) -> Option<Refusal>
    ensures some { IfSome result (λ why. IsNoLeg target journal.now.progress why × IsOfGo why) }
    ensures none { result ≡ None → (why : Refusals) → IsNoLeg target journal.now.progress why → ⊥ }
{
    let time = journal.time();
    if time != journal.target() {
        return Some(Refusal::LegOpen(journal.target(), time));
    }
    let ticks = u128::from(journal.ticks()) + u128::from(time.abs_diff(target));
    if ticks > u128::from(MOST_TICKS) {
        return Some(Refusal::TickLimit(ticks));
    }
    None
}

/// Where the run of a journal is.
fn done_of(journal: &Journal) -> Done
    ensures time { result.time ≡ journal.now.progress.time }
    ensures ticks { result.ticks ≡ journal.now.progress.ticks }
    ensures gone { result.gone ≡ journal.now.progress.gone }
{
    Done {
        time: journal.time(),
        ticks: journal.ticks(),
        gone: journal.gone(),
    }
}
