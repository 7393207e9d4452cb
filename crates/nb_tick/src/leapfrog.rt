//! One tick: kick, drift, kick.

ghost use Rattle.std.specs.Prelude.{◌≡◌, ◌≤◌, IsTrue, List, [], ◌∷◌, length, IfOk, OnOk, Err, Contains, ℕ};
ghost use Rattle.nb_host.specs.declared.page_name.PageName.{PageName as PageNames};
ghost use Rattle.nb_model.specs.declared.body.Body.{Body as Bodies};
ghost use Rattle.nb_model.specs.Limits.{most_bodies};
ghost use Rattle.nb_model.specs.Valid.{AreInRange, IsValidBodies};
ghost use Rattle.nb_cache.specs.InStep.{IsInStep};
ghost use Rattle.nb_cache.specs.Writes.{RanCached};
ghost use Rattle.nb_cache.specs.View.{seen};
ghost use Rattle.nb_tree.specs.Builds.{IsTreeInRange};
ghost use Rattle.nb_tick.specs.Slots.{slot_file, drifted_file, sorted_file, cell_file, tick_files};
ghost use Rattle.nb_tick.specs.State.{HoldsState};
ghost use Rattle.nb_tick.specs.Steps.{HasTreeOf, CantSort};
ghost use Rattle.nb_tick.specs.Tick.{IsState, IsStepped, LeavesState, IsNoState};

use crate::drifting::drift_all;
use crate::kicking::kick_all;
use crate::slot::{CELLS, DRIFTED, SORTED, Slot};
use crate::tick_error::TickError;
use nb_cache::Cache;
use nb_host::Host;
use nb_model::{Params, Way};
use nb_order::{ByKey, Sorter, reorder};
use nb_record::Tree;
use nb_tree::{Builder, build};
use nb_walk::Pool;

/// One tick, forward or back, of the bodies of a slot, of which there are `count` in Morton order: afterwards
/// the other slot holds the list one step on, in Morton order, each body with its half kick there, and the file
/// of cells holds the tree's. All of it is flushed to the host, and nothing is synced. The answer is how many
/// bodies are out. Where the slot's kicks are `known` they are taken from its records, and one tree is built;
/// else two are, and the slot's kicks aren't looked at. Whatever they were, the other slot then holds a valid
/// list, with its own half kicks. It takes no allocator, so no list of bodies is in memory. The files of the
/// drifted and of the sorted bodies may hold anything afterwards, and after a refusal the other slot and the
/// file of cells may too; the slot is as it was.
pub fn tick<H: Host>(
    host: &mut H,
    cache: &mut Cache,
    pool: &mut Pool,
    sorter: &mut Sorter,
    builder: &mut Builder,
    params: &Params,
    from: Slot,
    count: u64,
    way: Way,
    known: bool,
) -> Result<u64, TickError>
    requires params { AreInRange params.now }
    requires count { count ≤ most_bodies }
    requires unwritten { (file : ℕ) → Contains cache.old.unwritten file → Contains (tick_files from) file }
    requires in_step { IsInStep H.meaning cache.old host.old }
    ensures stepped { IfOk result (λ escaped. IsTrue H.meaning.tells → (bodies : List Bodies)
        → IsState params.now known count bodies ((H.meaning.contents host.old).file (slot_file from))
        → IsStepped params.now way from bodies (H.meaning.contents host.new) escaped) }
    ensures valid { IfOk result (λ escaped. IsTrue H.meaning.tells → (bodies : List Bodies)
        → IsValidBodies params.now bodies → length bodies ≡ count
        → HoldsState bodies ((H.meaning.contents host.old).file (slot_file from))
        → LeavesState params.now from bodies (H.meaning.contents host.new) escaped) }
    ensures most { IfOk result (λ escaped. escaped ≤ count) }
    ensures flushed { OnOk result (cache.new.unwritten ≡ []) }
    ensures room { pool.new.room ≡ pool.old.room }
    ensures damaged { (name : PageNames) → result ≡ Err (TickError.Damaged name)
        → IsNoState H.meaning params.now from count host.old name }
    ensures ran { RanCached H.meaning TickError.Fault (tick_files from) cache.old host.old
        cache.new host.new result }
{
    drift_all(
        host,
        cache,
        pool,
        builder,
        params,
        from.file(),
        count,
        way,
        known,
    )?;
    let tree = sort_drifted(host, cache, sorter, builder, params, count)?;
    kick_all(
        host,
        cache,
        pool,
        params,
        &tree,
        from.other().file(),
        count,
        way,
    )?;
    cache.flush(host)?;
    Ok(count - tree.count)
}

/// Sorts the drifted bodies in Morton order, and builds their tree.
fn sort_drifted<H: Host>(
    host: &mut H,
    cache: &mut Cache,
    sorter: &mut Sorter,
    builder: &mut Builder,
    params: &Params,
    count: u64,
) -> Result<Tree, TickError>
    requires params { AreInRange params.now }
    requires count { count ≤ most_bodies }
    requires in_step { IsInStep H.meaning cache.old host.old }
    ensures tree { IfOk result (λ tree. IsTrue H.meaning.tells → HasTreeOf params.now count
        (seen H.meaning cache.old host.old drifted_file) (seen H.meaning cache.new host.new) tree) }
    ensures range { IfOk result (IsTreeInRange params.now sorted_file cell_file count) }
    ensures damaged { (name : PageNames) → result ≡ Err (TickError.Damaged name)
        → CantSort H.meaning params.now count cache.old host.old name }
    ensures ran { RanCached H.meaning TickError.Fault (sorted_file ∷ cell_file ∷ []) cache.old host.old
        cache.new host.new result }
{
    reorder(host, cache, sorter, &ByKey, DRIFTED, SORTED, count)?;
    Ok(build(host, cache, builder, params, SORTED, CELLS, count)?)
}
