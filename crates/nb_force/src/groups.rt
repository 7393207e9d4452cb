//! The half kicks of the bodies of a tree.

ghost use Rattle.std.specs.Prelude.{◌≡◌, ◌≢◌, ◌≤◌, ◌<◌, ◌+◌, ◌-◌, ℕ, OnOk, Err, Some, [], ◌∷◌, List, length, All, slice_get, IsTrue, ◌⊎◌};
ghost use Rattle.nb_host.specs.declared.page_name.PageName.{PageName as PageNames};
ghost use Rattle.nb_model.specs.declared.body.Body.{Body as Bodies};
ghost use Rattle.nb_model.specs.declared.params.Params.{Params as Parameters};
ghost use Rattle.nb_model.specs.Limits.{kick_limit, most_bodies};
ghost use Rattle.nb_model.specs.Valid.{IsBelow};
ghost use Rattle.nb_cache.specs.InStep.{IsCachedFile, IsInStep};
ghost use Rattle.nb_cache.specs.View.{seen};
ghost use Rattle.nb_cache.specs.Writes.{RanCached};
ghost use Rattle.nb_record.specs.Tree.{IsTreeOf};
ghost use Rattle.nb_walk.specs.Pool.{sums};
ghost use Rattle.nb_walk.specs.Shown.{IsWalkable};
ghost use Rattle.nb_force.specs.Groups.{TakesRange, IsNoRange, IsBrokenTree, AreBegun, GoTo, IsKickAt, AreKicksFrom};
ghost use Rattle.nb_force.specs.Kicks.{TakesAll, IsNoForce};

use crate::force_error::ForceError;
use crate::receiver::Receiver;
use crate::rounds::finish;
use nb_cache::Cache;
use nb_host::Host;
use nb_model::{Params, V3};
use nb_order::{body_at, page_name};
use nb_record::Tree;
use nb_walk::Pool;

/// Hands the receiver each unescaped body of the tree, once, in Morton order, by its index from 0, with its
/// half kick, in box units a tick. As many walks as the pool has room for wait for their pages together. The
/// receiver's file isn't one of the tree's. After a refusal the receiver has taken some of them.
pub fn kicks<H: Host, R: Receiver<H>>(
    host: &mut H,
    cache: &mut Cache,
    pool: &mut Pool,
    params: &Params,
    tree: &Tree,
    receiver: &mut R,
) -> Result<(), ForceError>
    requires tree { IsWalkable params.now tree.now }
    requires count { tree.now.count ≤ most_bodies }
    requires files { IsCachedFile tree.now.bodies × IsCachedFile tree.now.cells }
    requires apart { (R.model.file receiver.old ≢ tree.now.bodies) × (R.model.file receiver.old ≢ tree.now.cells) }
    requires in_step { IsInStep H.meaning cache.old host.old }
    ensures takes { OnOk result (TakesAll H.meaning R.model params.now tree.now
        cache.old host.old receiver.old cache.new host.new receiver.new) }
    ensures file { OnOk result (R.model.file receiver.new ≡ R.model.file receiver.old) }
    ensures setting { OnOk result (R.model.setting receiver.new ≡ R.model.setting receiver.old) }
    ensures room { pool.new.room ≡ pool.old.room }
    ensures damaged { (name : PageNames) → result ≡ Err (ForceError.Damaged name)
        → IsNoForce H.meaning R.model params.now tree.now cache.old host.old receiver.old name }
    ensures ran { RanCached H.meaning ForceError.Fault (R.model.file receiver.old ∷ []) cache.old host.old
        cache.new host.new result }
{
    let mut from = 0;
    while from < tree.count {
        let end = tree.count.min(from + pool.walks() as u64);
        group(host, cache, pool, params, tree, receiver, from, end)?;
        from = end;
    }
    Ok(())
}

/// Hands over the bodies from an index on up to another, for which the pool has room.
fn group<H: Host, R: Receiver<H>>(
    host: &mut H,
    cache: &mut Cache,
    pool: &mut Pool,
    params: &Params,
    tree: &Tree,
    receiver: &mut R,
    from: u64,
    end: u64,
) -> Result<(), ForceError>
    requires tree { IsWalkable params.now tree.now }
    requires count { tree.now.count ≤ most_bodies }
    requires files { IsCachedFile tree.now.bodies × IsCachedFile tree.now.cells }
    requires apart { (R.model.file receiver.old ≢ tree.now.bodies) × (R.model.file receiver.old ≢ tree.now.cells) }
    requires range { (from ≤ end) × (end ≤ tree.now.count) × (end ≤ from + pool.old.room) }
    requires in_step { IsInStep H.meaning cache.old host.old }
    ensures takes { OnOk result (TakesRange H.meaning R.model params.now tree.now from end
        cache.old host.old receiver.old cache.new host.new receiver.new) }
    ensures file { OnOk result (R.model.file receiver.new ≡ R.model.file receiver.old) }
    ensures setting { OnOk result (R.model.setting receiver.new ≡ R.model.setting receiver.old) }
    ensures room { pool.new.room ≡ pool.old.room }
    ensures damaged { (name : PageNames) → result ≡ Err (ForceError.Damaged name)
        → IsNoRange H.meaning R.model params.now tree.now from end cache.old host.old receiver.old name }
    ensures ran { RanCached H.meaning ForceError.Fault (R.model.file receiver.old ∷ []) cache.old host.old
        cache.new host.new result }
{
    begin_walks(host, cache, pool, tree, from, end)?;
    finish(host, cache, pool, params, tree)?;
    hand_over(host, cache, pool, tree, receiver, from, end)
}

/// Begins a walk for each body from an index on up to another.
fn begin_walks<H: Host>(
    host: &mut H,
    cache: &mut Cache,
    pool: &mut Pool,
    tree: &Tree,
    from: u64,
    end: u64,
) -> Result<(), ForceError>
    requires file { IsCachedFile tree.now.bodies }
    requires count { tree.now.count ≤ most_bodies }
    requires range { (from ≤ end) × (end ≤ tree.now.count) × (end ≤ from + pool.old.room) }
    requires in_step { IsInStep H.meaning cache.old host.old }
    ensures room { pool.new.room ≡ pool.old.room }
    ensures begun { OnOk result (AreBegun pool.new.walks) }
    ensures length { OnOk result (length pool.new.walks ≡ end - from) }
    ensures targets { OnOk result (IsTrue H.meaning.tells → (params : Parameters) (bodies : List Bodies)
        → IsTreeOf tree.now (seen H.meaning cache.old host.old) params bodies
        → GoTo bodies from pool.new.walks) }
    ensures damaged { (name : PageNames) → result ≡ Err (ForceError.Damaged name)
        → (params : Parameters) → IsBrokenTree H.meaning params tree.now cache.old host.old name }
    ensures ran { RanCached H.meaning ForceError.Fault [] cache.old host.old cache.new host.new result }
{
    pool.clear();
    for index in from..end {
        let body = body_at(host, cache, tree.bodies, index)?;
        pool.begin(body.at);
    }
    Ok(())
}

/// Hands over the bodies from an index on up to another, each with the sum of its walk.
fn hand_over<H: Host, R: Receiver<H>>(
    host: &mut H,
    cache: &mut Cache,
    pool: &Pool,
    tree: &Tree,
    receiver: &mut R,
    from: u64,
    end: u64,
) -> Result<(), ForceError>
    requires count { tree.now.count ≤ most_bodies }
    requires file { IsCachedFile tree.now.bodies }
    requires apart { (R.model.file receiver.old ≢ tree.now.bodies) × (R.model.file receiver.old ≢ tree.now.cells) }
    requires range { (from ≤ end) × (end ≤ tree.now.count) }
    requires walks { length pool.now.walks ≡ end - from }
    requires kicks { All (IsBelow kick_limit) (sums pool.now.walks) }
    requires in_step { IsInStep H.meaning cache.old host.old }
    ensures takes { OnOk result ((params : Parameters)
        → AreKicksFrom H.meaning params tree.now cache.old host.old from pool.now.walks
        → TakesRange H.meaning R.model params tree.now from end
        cache.old host.old receiver.old cache.new host.new receiver.new) }
    ensures file { OnOk result (R.model.file receiver.new ≡ R.model.file receiver.old) }
    ensures setting { OnOk result (R.model.setting receiver.new ≡ R.model.setting receiver.old) }
    ensures damaged { (name : PageNames) → result ≡ Err (ForceError.Damaged name) → (params : Parameters)
        → AreKicksFrom H.meaning params tree.now cache.old host.old from pool.now.walks
        → IsNoRange H.meaning R.model params tree.now from end cache.old host.old receiver.old name }
    ensures ran { RanCached H.meaning ForceError.Fault (R.model.file receiver.old ∷ []) cache.old host.old
        cache.new host.new result }
{
    for index in from..end {
        let kick = pool.sum((index - from) as usize);
        hand_one(host, cache, tree, receiver, index, &kick)?;
    }
    Ok(())
}

/// Hands over the body with this index and its half kick.
fn hand_one<H: Host, R: Receiver<H>>(
    host: &mut H,
    cache: &mut Cache,
    tree: &Tree,
    receiver: &mut R,
    index: u64,
    kick: &V3,
) -> Result<(), ForceError>
    requires count { tree.now.count ≤ most_bodies }
    requires file { IsCachedFile tree.now.bodies }
    requires index { index < tree.now.count }
    requires kick { IsBelow kick_limit kick.now }
    requires in_step { IsInStep H.meaning cache.old host.old }
    ensures takes { OnOk result ((params : Parameters)
        → IsKickAt H.meaning params tree.now cache.old host.old index kick.now
        → TakesRange H.meaning R.model params tree.now index (index + 1)
        cache.old host.old receiver.old cache.new host.new receiver.new) }
    ensures file { OnOk result (R.model.file receiver.new ≡ R.model.file receiver.old) }
    ensures setting { OnOk result (R.model.setting receiver.new ≡ R.model.setting receiver.old) }
    ensures damaged { (name : PageNames) → result ≡ Err (ForceError.Damaged name) → (params : Parameters)
        → IsKickAt H.meaning params tree.now cache.old host.old index kick.now
        → IsNoRange H.meaning R.model params tree.now index (index + 1) cache.old host.old receiver.old name }
    ensures ran { RanCached H.meaning ForceError.Fault (R.model.file receiver.old ∷ []) cache.old host.old
        cache.new host.new result }
{
    let body = body_at(host, cache, tree.bodies, index)?;
    if body.out {
        return Err(ForceError::Damaged(page_name(tree.bodies, index)));
    }
    receiver.take(host, cache, index, &body, kick)?;
    Ok(())
}
