//! The snapshots of a run.

ghost use Rattle.std.specs.Prelude.{◌≡◌, ◌⊎◌, ◌↔◌, ◌<◌, ◌≤◌, List, [], ◌∷◌, None, IsTrue, IfOk, IfErr, OnOk};
ghost use Rattle.std.specs.Option.{ForSome};
ghost use Rattle.nb_model.specs.declared.body.Body.{Body as Bodies};
ghost use Rattle.nb_host.specs.Crashes.{AgreesOutside, Stays};
ghost use Rattle.nb_host.specs.Meaning.{IsDurable, Leads};
ghost use Rattle.nb_format.specs.Images.{ChangesWith, IsBeingWritten, IsWritten};
ghost use Rattle.nb_format.specs.Snapshot.{IsSnapshot, IsFinishedSnapshot};
ghost use Rattle.nb_format.specs.Writer.{SnapshotPlan, plan_of, added_count, last_added, StaysUnfinished};
ghost use Rattle.nb_cache.specs.View.{seen};
ghost use Rattle.nb_tick.specs.Slots.{slot_of, sorted_file};
ghost use Rattle.nb_engine.specs.Due.{TellsDue};
ghost use Rattle.nb_engine.specs.Frame.{EachImage, RanSession};
ghost use Rattle.nb_engine.specs.Histories.{History};
ghost use Rattle.nb_engine.specs.Refusal.{NeedsNoCause};
ghost use Rattle.nb_engine.specs.Represents.{snap_of};
ghost use Rattle.nb_engine.specs.Snapshots.{snapshot_files, HoldsByIds, HoldsByKeys, IsEnd, IsSnapshotPage, IsPageDamaged};
ghost use Rattle.nb_engine.specs.Steps.{IsCheckpoint, IsFlushed, IsStateDamaged, HoldsDueSnapshots, GoesOn, HasPlayed};

use crate::files::{SORTED_FILE, snapshot_file};
use crate::refusal::Refusal;
use crate::workspace::Workspace;
use nb_cache::Cache;
use nb_format::{Filling, Fresh, snap_finished};
use nb_host::Host;
use nb_journal::Journal;
use nb_order::{ById, body_at, page_name, reorder};
use nb_tick::Slot;

/// Writes the snapshot of the last tick, where it is due and isn't finished. A file that is there and isn't
/// finished is begun anew.
pub(crate) fn finish<H: Host>(
    host: &mut H,
    work: &mut Workspace,
    journal: &Journal,
    due: bool,
) -> Result<(), Refusal>
    requires { IsFlushed H.meaning work.old.cache host.old }
    ensures settled { OnOk result (IsFlushed H.meaning work.new.cache host.new) }
    ensures pages { OnOk result (work.new.cache.pages ≡ work.old.cache.pages) }
    ensures pool { OnOk result (work.new.pool ≡ work.old.pool) }
    ensures durable { OnOk result (IsDurable H.meaning host.old → IsDurable H.meaning host.new) }
    ensures finished { OnOk result ((h : History) → TellsDue h due → IsCheckpoint H.meaning h journal.now host.old
        → HasPlayed H.meaning 0 h (H.meaning.contents host.old) journal.now host.new
        × HoldsDueSnapshots H.meaning h host.new) }
    ensures images { (h : History) → TellsDue h due → IsCheckpoint H.meaning h journal.now host.old
        → EachImage H.meaning (GoesOn 0 h (H.meaning.contents host.old)) host.old host.new }
    ensures spared { IsTrue H.meaning.tells → (IsTrue due → ⊥)
        ⊎ IsFinishedSnapshot journal.now.count ((H.meaning.contents host.old).file (snap_of journal.now.progress.ticks))
        → Leads H.meaning Stays host.old host.new }
    ensures cause { IfErr result (λ why. NeedsNoCause why ⊎ IsStateDamaged H.meaning journal.now host.old why) }
    ensures ran { RanSession H.meaning (AgreesOutside (snapshot_files journal.now.progress.ticks))
        host.old host.new result }
{
    let _ = journal.params();
    if !due {
        return Ok(());
    }
    let file = snapshot_file(journal.ticks());
    if snap_finished(host, file, journal.count())? {
        return Ok(());
    }
    write_snapshot(host, work, journal)
}

/// Writes the snapshot of the last tick: the bodies of its slot in the order of their ids.
fn write_snapshot<H: Host>(
    host: &mut H,
    work: &mut Workspace,
    journal: &Journal,
) -> Result<(), Refusal>
    requires { IsFlushed H.meaning work.old.cache host.old }
    ensures settled { OnOk result (IsFlushed H.meaning work.new.cache host.new) }
    ensures pages { OnOk result (work.new.cache.pages ≡ work.old.cache.pages) }
    ensures pool { OnOk result (work.new.pool ≡ work.old.pool) }
    ensures written { OnOk result (IsTrue H.meaning.tells → (bodies : List Bodies)
        → HoldsByKeys journal.now.count bodies ((H.meaning.contents host.old).file (slot_of journal.now.progress.ticks))
        → IsSnapshot ((H.meaning.contents host.new).file (snap_of journal.now.progress.ticks)) bodies
        journal.now.progress.time) }
    ensures durable { OnOk result (IsDurable H.meaning host.new) }
    ensures images { (bodies : List Bodies) → (IsTrue H.meaning.tells → HoldsByKeys journal.now.count bodies
        ((H.meaning.contents host.old).file (slot_of journal.now.progress.ticks)))
        → Leads H.meaning (ChangesWith (sorted_file ∷ []) (snap_of journal.now.progress.ticks)
        (IsWritten bodies journal.now.progress.time)) host.old host.new }
    ensures cause { IfErr result (λ why. NeedsNoCause why
        ⊎ IsPageDamaged H.meaning (IsSnapshotPage journal.now.progress.ticks) (λ bodies.
        HoldsByKeys journal.now.count bodies
        ((H.meaning.contents host.old).file (slot_of journal.now.progress.ticks))) why) }
    ensures ran { RanSession H.meaning (AgreesOutside (snapshot_files journal.now.progress.ticks))
        host.old host.new result }
{
    let _ = journal.params();
    let ticks = journal.ticks();
    let count = journal.count();
    let slot = Slot::of(ticks).file();
    reorder(
        host,
        &mut work.cache,
        &mut work.sorter,
        &ById,
        slot,
        SORTED_FILE,
        count,
    )?;
    let fresh = Fresh::new(snapshot_file(ticks), count, journal.time());
    let filling = fresh.begin(host)?;
    let filling = add_bodies(host, &mut work.cache, filling, count)?;
    filling.close(host)?;
    Ok(())
}

/// Adds the bodies of the sorted file, so many, to a snapshot that was begun.
fn add_bodies<H: Host>(
    host: &mut H,
    cache: &mut Cache,
    filling: Filling,
    count: u64,
) -> Result<Filling, Refusal>
    requires count { (plan_of filling).count ≡ count }
    requires file { 16 ≤ (plan_of filling).file }
    requires none { added_count filling ≡ 0 }
    requires first { last_added filling ≡ None }
    requires settled { IsFlushed H.meaning cache.old host.old }
    ensures settled { OnOk result (IsFlushed H.meaning cache.new host.new) }
    ensures pages { OnOk result (cache.new.pages ≡ cache.old.pages) }
    ensures full { IfOk result (λ full. (plan_of full ≡ plan_of filling) × (added_count full ≡ count)) }
    ensures added { IsTrue H.meaning.tells → (plan : SnapshotPlan) (bodies : List Bodies) (start : H)
        → HoldsByIds count bodies (seen H.meaning cache.old host.old sorted_file)
        → IsBeingWritten H.meaning (sorted_file ∷ []) plan filling [] start host.old
        → IfOk result (λ full. IsBeingWritten H.meaning (sorted_file ∷ []) plan full bodies start host.new) }
    ensures refused { (plan : SnapshotPlan) (start : H)
        → IsBeingWritten H.meaning (sorted_file ∷ []) plan filling [] start host.old
        → Leads H.meaning (ChangesWith (sorted_file ∷ []) plan.file StaysUnfinished) start host.new }
    ensures cause { IfErr result (λ why. NeedsNoCause why
        ⊎ IsPageDamaged H.meaning (IsEnd H.meaning count cache.old host.old) (λ bodies.
        HoldsByIds count bodies (seen H.meaning cache.old host.old sorted_file)) why) }
    ensures ran { RanSession H.meaning (AgreesOutside (sorted_file ∷ (plan_of filling).file ∷ []))
        host.old host.new result }
{
    let mut filling = filling;
    let mut last: Option<u64> = None;
    for index in 0..count {
        let body = body_at(host, cache, SORTED_FILE, index)?;
        if !comes_behind(last, body.id) {
            return Err(Refusal::Damaged(page_name(SORTED_FILE, index)));
        }
        filling = filling.add(host, &body)?;
        last = Some(body.id);
    }
    Ok(filling)
}

/// Whether an id is above the last one, if there is one.
fn comes_behind(last: Option<u64>, id: u64) -> bool
    ensures { IsTrue result ↔ ForSome last (λ before. before < id) }
{
    match last {
        None => true,
        Some(before) => before < id,
    }
}
