//! The first half kick and the drift.

ghost use Rattle.std.specs.Prelude.{◌≡◌, ◌≢◌, ◌≤◌, ◌<◌, ◌+◌, false, true, IsTrue, List, [], ◌∷◌, ◌++◌, map, length, OnOk, Err};
ghost use Rattle.nb_host.specs.declared.page_name.PageName.{PageName as PageNames};
ghost use Rattle.nb_model.specs.declared.body.Body.{Body as Bodies};
ghost use Rattle.nb_model.specs.declared.params.Params.{Params as Parameters};
ghost use Rattle.nb_model.specs.declared.way.Way.{Way as Ways};
ghost use Rattle.nb_model.specs.Limits.{kick_limit, most_bodies};
ghost use Rattle.nb_model.specs.Valid.{AreInRange, IsBelow, IsValidBody, IsValidBodies};
ghost use Rattle.nb_cache.specs.InStep.{IsCachedFile, IsInStep};
ghost use Rattle.nb_cache.specs.View.{seen};
ghost use Rattle.nb_cache.specs.Writes.{RanCached};
ghost use Rattle.nb_tick.specs.Slots.{drifted_file, cell_file};
ghost use Rattle.nb_tick.specs.State.{HoldsState};
ghost use Rattle.nb_tick.specs.Steps.{drifted_one, resting_one, IsDrifted, CantDrift};
ghost use Rattle.nb_tick.specs.Writer.{HasWritten, CanAdd, HasCopied, CantCopy};

use crate::body_writer::BodyWriter;
use crate::slot::{CELLS, DRIFTED};
use crate::tick_error::TickError;
use nb_cache::Cache;
use nb_fixed::{accelerate, drift_body};
use nb_force::{ForceError, Receiver, kicks};
use nb_host::Host;
use nb_model::{Body, Params, V3, Way};
use nb_order::{body_at, kicked_at};
use nb_tree::{Builder, build};
use nb_walk::Pool;

/// No kick.
const NO_KICK: V3 = V3 { x: 0, y: 0, z: 0 };

/// Takes bodies with their first half kick, drifts them and writes them.
#[derive(Drop)]
pub(crate) struct Drifter<'a> {
    params: &'a Params,
    way: Way,
    writer: BodyWriter,
}

impl<H: Host> Receiver<H> for Drifter<'_> {
    ghost model = { record {
      has_taken = λ d files list.
          HasWritten files d.writer (map (λ g. drifted_one d.params.now d.way g.kicked) list);
      file = λ d. d.writer.file;
      Setting = Parameters × Ways;
      setting = λ d. (d.params.now, d.way);
      fits = λ d files more. CanAdd files d.writer (length more);
    } };

    fn take(
        &mut self,
        host: &mut H,
        cache: &mut Cache,
        index: u64,
        body: &Body,
        kick: &V3,
    ) -> Result<(), ForceError> {
        let _ = index;
        let drifted = drift_body(self.params, self.way, accelerate(self.way, kick, *body));
        self.writer.add(host, cache, &drifted, &NO_KICK)?;
        Ok(())
    }
}

/// Kicks and drifts the bodies of a slot, into the file of drifted bodies: those in the box in Morton order,
/// and behind them those that were out. The first half kicks are those of the records where they are `known`,
/// and are found by a tree of the slot's bodies where they aren't.
pub(crate) fn drift_all<H: Host>(
    host: &mut H,
    cache: &mut Cache,
    pool: &mut Pool,
    builder: &mut Builder,
    params: &Params,
    from: u64,
    count: u64,
    way: Way,
    known: bool,
) -> Result<(), TickError>
    requires params { AreInRange params.now }
    requires from { IsCachedFile from }
    requires apart { (from ≢ drifted_file) × (from ≢ cell_file) }
    requires count { count ≤ most_bodies }
    requires in_step { IsInStep H.meaning cache.old host.old }
    ensures drifted { OnOk result (IsTrue H.meaning.tells → (bodies : List Bodies)
        → IsValidBodies params.now bodies → length bodies ≡ count
        → HoldsState bodies (seen H.meaning cache.old host.old from)
        → IsDrifted params.now way known bodies (seen H.meaning cache.old host.old from)
        (seen H.meaning cache.new host.new drifted_file)) }
    ensures room { pool.new.room ≡ pool.old.room }
    ensures damaged { (name : PageNames) → result ≡ Err (TickError.Damaged name)
        → CantDrift H.meaning params.now (from ∷ drifted_file ∷ cell_file ∷ []) from count cache.old host.old name }
    ensures ran { RanCached H.meaning TickError.Fault (drifted_file ∷ cell_file ∷ []) cache.old host.old
        cache.new host.new result }
{
    cache.empty(host, DRIFTED)?;
    if known {
        return drift_known(host, cache, params, from, count, way);
    }
    drift_found(host, cache, pool, builder, params, from, count, way)
}

/// Drifts the bodies of a file by the kicks of their records, into the empty file of drifted bodies.
fn drift_known<H: Host>(
    host: &mut H,
    cache: &mut Cache,
    params: &Params,
    from: u64,
    count: u64,
    way: Way,
) -> Result<(), TickError>
    requires from { IsCachedFile from }
    requires apart { from ≢ drifted_file }
    requires count { count ≤ most_bodies }
    requires empty { IsTrue H.meaning.tells → seen H.meaning cache.old host.old drifted_file ≡ [] }
    requires in_step { IsInStep H.meaning cache.old host.old }
    ensures drifted { OnOk result (IsTrue H.meaning.tells → (bodies : List Bodies)
        → IsValidBodies params.now bodies → length bodies ≡ count
        → HoldsState bodies (seen H.meaning cache.old host.old from)
        → IsDrifted params.now way true bodies (seen H.meaning cache.old host.old from)
        (seen H.meaning cache.new host.new drifted_file)) }
    ensures damaged { (name : PageNames) → result ≡ Err (TickError.Damaged name)
        → CantDrift H.meaning params.now (from ∷ drifted_file ∷ []) from count cache.old host.old name }
    ensures ran { RanCached H.meaning TickError.Fault (drifted_file ∷ []) cache.old host.old
        cache.new host.new result }
{
    let mut writer = BodyWriter::new(DRIFTED);
    for index in 0..count {
        drift_record(host, cache, params, from, index, way, &mut writer)?;
    }
    Ok(())
}

/// Drifts the body of this index by the kick of its record, and adds it to another file.
fn drift_record<H: Host>(
    host: &mut H,
    cache: &mut Cache,
    params: &Params,
    from: u64,
    index: u64,
    way: Way,
    writer: &mut BodyWriter,
) -> Result<(), TickError>
    requires from { IsCachedFile from }
    requires apart { from ≢ writer.old.file }
    requires index { index < most_bodies }
    requires in_step { IsInStep H.meaning cache.old host.old }
    ensures copied { OnOk result (HasCopied H.meaning (drifted_one params.now way) from index (index + 1)
        cache.old host.old writer.old cache.new host.new writer.new) }
    ensures file { writer.new.file ≡ writer.old.file }
    ensures damaged { (name : PageNames) → result ≡ Err (TickError.Damaged name)
        → CantCopy H.meaning from index (index + 1) cache.old host.old writer.old name }
    ensures ran { RanCached H.meaning TickError.Fault (writer.old.file ∷ []) cache.old host.old
        cache.new host.new result }
{
    let found = kicked_at(host, cache, from, index)?;
    let drifted = drifted_by(params, way, &found.kick, found.body);
    writer.add(host, cache, &drifted, &NO_KICK)?;
    Ok(())
}

/// A body after this half kick and its drift. One that is out stays as it is.
fn drifted_by(params: &Params, way: Way, kick: &V3, body: Body) -> Body
    requires valid { IsValidBody body }
    requires kick { IsBelow kick_limit kick.now }
    ensures value { result ≡ (drifted_one params.now way (record { body = body; kick = kick.now })).body }
    ensures valid { IsValidBody result }
{
    if body.out {
        return body;
    }
    drift_body(params, way, accelerate(way, kick, body))
}

/// Drifts the bodies of a file by the half kicks that they get from one another, into the empty file of
/// drifted bodies.
fn drift_found<H: Host>(
    host: &mut H,
    cache: &mut Cache,
    pool: &mut Pool,
    builder: &mut Builder,
    params: &Params,
    from: u64,
    count: u64,
    way: Way,
) -> Result<(), TickError>
    requires params { AreInRange params.now }
    requires from { IsCachedFile from }
    requires apart { (from ≢ drifted_file) × (from ≢ cell_file) }
    requires count { count ≤ most_bodies }
    requires empty { IsTrue H.meaning.tells → seen H.meaning cache.old host.old drifted_file ≡ [] }
    requires in_step { IsInStep H.meaning cache.old host.old }
    ensures drifted { OnOk result (IsTrue H.meaning.tells → (bodies : List Bodies)
        → IsValidBodies params.now bodies → length bodies ≡ count
        → HoldsState bodies (seen H.meaning cache.old host.old from)
        → IsDrifted params.now way false bodies (seen H.meaning cache.old host.old from)
        (seen H.meaning cache.new host.new drifted_file)) }
    ensures room { pool.new.room ≡ pool.old.room }
    ensures damaged { (name : PageNames) → result ≡ Err (TickError.Damaged name)
        → CantDrift H.meaning params.now (from ∷ drifted_file ∷ cell_file ∷ []) from count cache.old host.old name }
    ensures ran { RanCached H.meaning TickError.Fault (drifted_file ∷ cell_file ∷ []) cache.old host.old
        cache.new host.new result }
{
    let tree = build(host, cache, builder, params, from, CELLS, count)?;
    let mut drifter = Drifter {
        params,
        way,
        writer: BodyWriter::new(DRIFTED),
    };
    kicks(host, cache, pool, params, &tree, &mut drifter)?;
    add_escaped(host, cache, from, tree.count, count, &mut drifter.writer)
}

/// Adds the bodies of a file from an index on, of which there are `count` in all, as they are.
pub(crate) fn add_escaped<H: Host>(
    host: &mut H,
    cache: &mut Cache,
    from: u64,
    begin: u64,
    count: u64,
    writer: &mut BodyWriter,
) -> Result<(), TickError>
    requires from { IsCachedFile from }
    requires apart { from ≢ writer.old.file }
    requires begin { begin ≤ count }
    requires count { count ≤ most_bodies }
    requires in_step { IsInStep H.meaning cache.old host.old }
    ensures copied { OnOk result (HasCopied H.meaning resting_one from begin count
        cache.old host.old writer.old cache.new host.new writer.new) }
    ensures file { writer.new.file ≡ writer.old.file }
    ensures damaged { (name : PageNames) → result ≡ Err (TickError.Damaged name)
        → CantCopy H.meaning from begin count cache.old host.old writer.old name }
    ensures ran { RanCached H.meaning TickError.Fault (writer.old.file ∷ []) cache.old host.old
        cache.new host.new result }
{
    for index in begin..count {
        add_record(host, cache, from, index, writer)?;
    }
    Ok(())
}

/// Adds the body of this index in a file to another file, as it is.
fn add_record<H: Host>(
    host: &mut H,
    cache: &mut Cache,
    from: u64,
    index: u64,
    writer: &mut BodyWriter,
) -> Result<(), TickError>
    requires from { IsCachedFile from }
    requires apart { from ≢ writer.old.file }
    requires index { index < most_bodies }
    requires in_step { IsInStep H.meaning cache.old host.old }
    ensures copied { OnOk result (HasCopied H.meaning resting_one from index (index + 1)
        cache.old host.old writer.old cache.new host.new writer.new) }
    ensures file { writer.new.file ≡ writer.old.file }
    ensures damaged { (name : PageNames) → result ≡ Err (TickError.Damaged name)
        → CantCopy H.meaning from index (index + 1) cache.old host.old writer.old name }
    ensures ran { RanCached H.meaning TickError.Fault (writer.old.file ∷ []) cache.old host.old
        cache.new host.new result }
{
    let body = body_at(host, cache, from, index)?;
    writer.add(host, cache, &body, &NO_KICK)?;
    Ok(())
}
