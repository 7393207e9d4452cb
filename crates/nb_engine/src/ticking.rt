//! Ticks one after the other, each with its entry, its line and its snapshot.

ghost use Rattle.std.specs.Prelude.{◌≡◌, ◌≢◌, ◌⊎◌, ◌<◌, ◌≤◌, ℕ, suc, List, [], IsTrue, IfOk, IfErr, OnOk};
ghost use Rattle.nb_model.specs.declared.body.Body.{Body as Bodies};
ghost use Rattle.nb_model.specs.Leapfrog.{escaped_count};
ghost use Rattle.nb_host.specs.declared.host.TheConstants.{LAST_FILE};
ghost use Rattle.nb_host.specs.Crashes.{AgreesOutside, Stays};
ghost use Rattle.nb_host.specs.Image.{FileBecomes, IsPartlyCut};
ghost use Rattle.nb_host.specs.Meaning.{IsDurable, Leads, Ran};
ghost use Rattle.nb_journal.specs.Counters.{Answers, counters_after};
ghost use Rattle.nb_journal.specs.declared.entry.Entry.TheVariants as entries;
ghost use Rattle.nb_tick.specs.Slots.{slot_of};
ghost use Rattle.nb_engine.specs.declared.refusal.Refusal.TheVariants as refusals;
ghost use Rattle.nb_engine.specs.Frame.{EachImage, KeepsOutsideRun, RanSession};
ghost use Rattle.nb_engine.specs.Histories.{History, state_at, run_of, ticks_of, IsHistory, ticked};
ghost use Rattle.nb_engine.specs.Refusal.{NeedsNoCause};
ghost use Rattle.nb_engine.specs.Represents.{RepresentsRun};
ghost use Rattle.nb_engine.specs.Sessions.{ticks_left};
ghost use Rattle.nb_engine.specs.Steps.{played, IsCheckpoint, IsFlushed, HasState, IsStateDamaged, fill_files, IsFilled, HasNextState, GoesOn, HasPlayed, HoldsDueSnapshots};

use crate::due::is_due;
use crate::files::snapshot_file;
use crate::refusal::Refusal;
use crate::snapshot::finish;
use crate::workspace::Workspace;
use nb_format::tick_line;
use nb_host::{Channel, Host, HostError, PageName};
use nb_journal::{Entry, Journal};
use nb_model::Way;
use nb_tick::{Slot, tick};

/// Runs the last leg to its end, tick by tick.
pub(crate) fn run_leg<H: Host>(
    host: &mut H,
    work: &mut Workspace,
    journal: Journal,
) -> Result<Journal, Refusal>
    requires { IsFlushed H.meaning work.old.cache host.old }
    ensures durable { OnOk result (IsDurable H.meaning host.old → IsDurable H.meaning host.new) }
    ensures ended { IfOk result (λ next. next.progress.time ≡ next.progress.target) }
    ensures target { IfOk result (λ next. next.progress.target ≡ journal.progress.target) }
    ensures still { journal.progress.time ≡ journal.progress.target → Leads H.meaning Stays host.old host.new }
    ensures run { IfOk result (λ next. (h : History) → IsCheckpoint H.meaning h journal host.old
        → HoldsDueSnapshots H.meaning h host.old
        → HasPlayed H.meaning (ticks_left journal.progress) h (H.meaning.contents host.old) next host.new
        × HoldsDueSnapshots H.meaning (played (ticks_left journal.progress) h) host.new) }
    ensures images { (h : History) → IsCheckpoint H.meaning h journal host.old → HoldsDueSnapshots H.meaning h host.old
        → EachImage H.meaning (GoesOn (ticks_left journal.progress) h (H.meaning.contents host.old))
        host.old host.new }
    ensures cause { IfErr result (λ why. NeedsNoCause why ⊎ IsStateDamaged H.meaning journal host.old why) }
    ensures ran { RanSession H.meaning KeepsOutsideRun host.old host.new result }
{
    let mut journal = journal;
    let left = journal.time().abs_diff(journal.target());
    for _ in 0..left {
        journal = step(host, work, journal)?;
    }
    Ok(journal)
}

/// One tick, with its entry, its line and its snapshot, where that is due.
fn step<H: Host>(host: &mut H, work: &mut Workspace, journal: Journal) -> Result<Journal, Refusal>
    requires leg { journal.progress.time ≢ journal.progress.target }
    requires settled { IsFlushed H.meaning work.old.cache host.old }
    ensures settled { OnOk result (IsFlushed H.meaning work.new.cache host.new) }
    ensures durable { OnOk result (IsDurable H.meaning host.new) }
    ensures counters { IfOk result (λ next. (gone : ℕ)
        × (next ≡ counters_after (entries.Tick (suc journal.progress.ticks) gone) journal)) }
    ensures ticked { IfOk result (λ next. (h : History) → IsCheckpoint H.meaning h journal host.old
        → HoldsDueSnapshots H.meaning h host.old
        → HasPlayed H.meaning 1 h (H.meaning.contents host.old) next host.new
        × HoldsDueSnapshots H.meaning (ticked h) host.new) }
    ensures next { IfOk result (λ next. IsTrue H.meaning.tells → (bodies : List Bodies)
        → HasState journal bodies (H.meaning.contents host.old).file
        → (later : List Bodies) × HasState next later (H.meaning.contents host.new).file) }
    ensures images { (h : History) → IsCheckpoint H.meaning h journal host.old → HoldsDueSnapshots H.meaning h host.old
        → EachImage H.meaning (GoesOn 1 h (H.meaning.contents host.old)) host.old host.new }
    ensures cause { IfErr result (λ why. NeedsNoCause why ⊎ IsStateDamaged H.meaning journal host.old why) }
    ensures ran { RanSession H.meaning KeepsOutsideRun host.old host.new result }
{
    let next = tick_once(host, work, journal)?;
    let due = is_due(&next);
    finish(host, work, &next, due)?;
    Ok(next)
}

/// One tick, with its entry, and its line, which is said when the entry counts.
fn tick_once<H: Host>(
    host: &mut H,
    work: &mut Workspace,
    journal: Journal,
) -> Result<Journal, Refusal>
    requires leg { journal.progress.time ≢ journal.progress.target }
    requires settled { IsFlushed H.meaning work.old.cache host.old }
    ensures settled { OnOk result (IsFlushed H.meaning work.new.cache host.new) }
    ensures durable { OnOk result (IsDurable H.meaning host.new) }
    ensures counters { IfOk result (λ next. (gone : ℕ)
        × (next ≡ counters_after (entries.Tick (suc journal.progress.ticks) gone) journal)) }
    ensures ticked { IfOk result (λ next. (h : History) → IsCheckpoint H.meaning h journal host.old
        → HoldsDueSnapshots H.meaning h host.old
        → HasPlayed H.meaning 1 h (H.meaning.contents host.old) next host.new) }
    ensures next { IfOk result (λ next. IsTrue H.meaning.tells → (bodies : List Bodies)
        → HasState journal bodies (H.meaning.contents host.old).file
        → (later : List Bodies) × HasState next later (H.meaning.contents host.new).file) }
    ensures images { (h : History) → IsCheckpoint H.meaning h journal host.old → HoldsDueSnapshots H.meaning h host.old
        → EachImage H.meaning (GoesOn 1 h (H.meaning.contents host.old)) host.old host.new }
    ensures cause { IfErr result (λ why. NeedsNoCause why ⊎ IsStateDamaged H.meaning journal host.old why) }
    ensures ran { RanSession H.meaning KeepsOutsideRun host.old host.new result }
{
    let ticks = journal.ticks();
    let gone = fill(host, work, &journal)?;
    keep_gone(&journal, gone)?;
    let next = journal.append(host, Entry::Tick(ticks + 1, gone))?;
    let line = tick_line(ticks + 1, next.time(), gone);
    host.say(Channel::Out, line.bytes())?;
    Ok(next)
}

/// Finds that at least as many bodies are out as before. Where fewer are, the slot of the last tick isn't what
/// it has to be, from its first page on.
fn keep_gone(journal: &Journal, gone: u64) -> Result<(), Refusal>
    ensures kept { OnOk result (journal.now.progress.gone ≤ gone) }
    ensures fewer { IfErr result (λ why. (gone < journal.now.progress.gone)
        × (why ≡ refusals.Damaged (record { file = slot_of journal.now.progress.ticks; page = 0 }))) }
{
    if gone < journal.gone() {
        return Err(Refusal::Damaged(PageName {
            file: Slot::of(journal.ticks()).file(),
            page: 0,
        }));
    }
    Ok(())
}

/// Fills the other slot with the bodies one tick on, and empties the file under the name of that tick's
/// snapshot. The answer is how many bodies are out then.
fn fill<H: Host>(host: &mut H, work: &mut Workspace, journal: &Journal) -> Result<u64, Refusal>
    requires leg { journal.now.progress.time ≢ journal.now.progress.target }
    requires settled { IsFlushed H.meaning work.old.cache host.old }
    ensures settled { OnOk result (IsFlushed H.meaning work.new.cache host.new) }
    ensures filled { IfOk result (λ gone. IsTrue H.meaning.tells → (h : History)
        → Answers h.log journal.now → IsHistory h → RepresentsRun h (H.meaning.contents host.old)
        → IsFilled h (H.meaning.contents host.new)
        × (gone ≡ escaped_count (state_at (run_of h) (suc (ticks_of h))))) }
    ensures most { IfOk result (λ gone. gone ≤ journal.now.count) }
    ensures next { IfOk result (λ gone. IsTrue H.meaning.tells → (bodies : List Bodies)
        → HasState journal.now bodies (H.meaning.contents host.old).file
        → HasNextState journal.now gone (H.meaning.contents host.new).file) }
    ensures cause { IfErr result (λ why. NeedsNoCause why ⊎ IsStateDamaged H.meaning journal.now host.old why) }
    ensures ran { RanSession H.meaning (AgreesOutside (fill_files journal.now.progress.ticks))
        host.old host.new result }
{
    let params = journal.params();
    let ticks = journal.ticks();
    let way = if journal.time() < journal.target() {
        Way::Forward
    } else {
        Way::Back
    };
    let gone = tick(
        host,
        &mut work.cache,
        &mut work.pool,
        &mut work.sorter,
        &mut work.builder,
        &params,
        Slot::of(ticks),
        journal.count(),
        way,
        ticks > 0,
    )?;
    clear(host, snapshot_file(ticks + 1))?;
    Ok(gone)
}

/// Empties a file.
fn clear<H: Host>(host: &mut H, file: u64) -> Result<(), HostError>
    requires { file ≤ LAST_FILE }
    ensures cleared { OnOk result (IsTrue H.meaning.tells → (H.meaning.contents host.new).file file ≡ []) }
    ensures ran { Ran H.meaning HostError.Fault (FileBecomes file (IsPartlyCut 0)) host.old host.new result }
{
    if host.len(file)? == 0 {
        return Ok(());
    }
    host.cut(file, 0)
}
