//! Sorting a file of bodies into another.

ghost use Rattle.std.specs.Prelude.{◌≡◌, ◌≢◌, ◌⊎◌, ℕ, ◌+◌, ◌<◌, ◌≤◌, List, [], ◌∷◌, ◌++◌, length, slice_get};
ghost use Rattle.std.specs.Prelude.{IsTrue, All, IfOk, OnOk, Err, Some};
ghost use Rattle.std.specs.BTreeMap.{values, btree_map_len};
ghost use Rattle.nb_host.specs.declared.page_name.PageName.{PageName as PageNames};
ghost use Rattle.nb_model.specs.declared.body.Body.{Body as Bodies};
ghost use Rattle.nb_model.specs.Limits.{most_bodies};
ghost use Rattle.nb_cache.specs.InStep.{IsCachedFile, IsInStep};
ghost use Rattle.nb_cache.specs.View.{seen};
ghost use Rattle.nb_cache.specs.Writes.{RanCached};
ghost use Rattle.nb_order.specs.Files.{page_of_body, HasBody, IsSortedCopy, IsDouble, IsUnsortable};
ghost use Rattle.nb_order.specs.Indexes.{AreIndexesOf, AreReadTo, HasFirst, IsCopyOf};
ghost use Rattle.nb_order.specs.Refusals.{IsSortRefused};

use crate::body_file::{body_at, kicked_at, page_name, push_body};
use crate::order::Order;
use crate::order_error::OrderError;
use nb_cache::Cache;
use nb_host::Host;
use std::alloc::Global;
use std::collections::BTreeMap;

/// Where a reordering takes the memory of its map from. It hands it to nobody.
#[derive(Drop)]
pub struct Sorter {
    alloc: Global,
}

impl Sorter {
    /// Takes no memory.
    pub fn new(alloc: Global) -> Sorter {
        Sorter { alloc }
    }
}

/// The indexes of bodies in a file, by rank and id.
type Indexes = BTreeMap<(u128, u64), u64>;

/// Sorts the bodies of a file, of which there are `count`, into another file, each with its kick. It goes
/// through the file once, and keeps the rank, the id and the index of each body in memory; then it copies
/// the records in order, each read again by its index.
pub fn reorder<H: Host, O: Order>(
    host: &mut H,
    cache: &mut Cache,
    sorter: &mut Sorter,
    order: &O,
    from: u64,
    to: u64,
    count: u64,
) -> Result<(), OrderError>
    requires from { IsCachedFile from }
    requires to { IsCachedFile to }
    requires differ { from ≢ to }
    requires count { count ≤ most_bodies }
    requires in_step { IsInStep H.meaning cache.old host.old }
    ensures sorted { OnOk result (IsTrue H.meaning.tells → IsSortedCopy O.rank_of count
        (seen H.meaning cache.old host.old from) (seen H.meaning cache.new host.new to)) }
    ensures damaged { (name : PageNames) → result ≡ Err (OrderError.Damaged name)
        → IsSortRefused H.meaning O.rank_of cache.old host.old from to count name }
    ensures ran { RanCached H.meaning OrderError.Fault (to ∷ []) cache.old host.old
        cache.new host.new result }
{
    let indexes = indexes_of(host, cache, sorter, order, from, count)?;
    cache.empty(host, to)?;
    copy(host, cache, &indexes, from, to)
}

/// The indexes of a file's bodies, of which there are `count`, by rank and id.
fn indexes_of<H: Host, O: Order>(
    host: &mut H,
    cache: &mut Cache,
    sorter: &mut Sorter,
    order: &O,
    from: u64,
    count: u64,
) -> Result<Indexes, OrderError>
    requires from { IsCachedFile from }
    requires count { count ≤ most_bodies }
    requires in_step { IsInStep H.meaning cache.old host.old }
    ensures read { IfOk result (λ indexes. IsTrue H.meaning.tells
        → AreReadTo O.rank_of (seen H.meaning cache.old host.old from) count indexes.entries) }
    ensures numbers { IfOk result (λ indexes. All (λ number. number < most_bodies) (values indexes)) }
    ensures few { IfOk result (λ indexes. btree_map_len indexes ≤ most_bodies) }
    ensures page { (name : PageNames) → result ≡ Err (OrderError.Damaged name) → name.file ≡ from }
    ensures shown { (name : PageNames) → result ≡ Err (OrderError.Damaged name) → IsTrue H.meaning.tells
        → IsUnsortable O.rank_of from count (seen H.meaning cache.old host.old from) name }
    ensures ran { RanCached H.meaning OrderError.Fault [] cache.old host.old cache.new host.new result }
{
    let mut indexes = BTreeMap::new(sorter.alloc);
    for index in 0..count {
        add_index(host, cache, &mut indexes, order, from, index)?;
    }
    Ok(indexes)
}

/// Adds the body of this index to the indexes of the bodies before it.
fn add_index<H: Host, O: Order>(
    host: &mut H,
    cache: &mut Cache,
    indexes: &mut Indexes,
    order: &O,
    from: u64,
    index: u64,
) -> Result<(), OrderError>
    requires from { IsCachedFile from }
    requires index { index < most_bodies }
    requires in_step { IsInStep H.meaning cache.old host.old }
    requires numbers { All (λ number. number < index) (values indexes.old) }
    ensures numbers { OnOk result (All (λ number. number < index + 1) (values indexes.new)) }
    ensures count { OnOk result (btree_map_len indexes.new ≡ btree_map_len indexes.old + 1) }
    ensures read { OnOk result (IsTrue H.meaning.tells
        → AreReadTo O.rank_of (seen H.meaning cache.old host.old from) index indexes.old.entries
        → AreReadTo O.rank_of (seen H.meaning cache.old host.old from) (index + 1) indexes.new.entries) }
    ensures page { (name : PageNames) → result ≡ Err (OrderError.Damaged name)
        → name ≡ page_of_body from index }
    ensures cause { (name : PageNames) → result ≡ Err (OrderError.Damaged name) → IsTrue H.meaning.tells
        → AreReadTo O.rank_of (seen H.meaning cache.old host.old from) index indexes.old.entries
        → (HasBody (seen H.meaning cache.old host.old from) index → ⊥)
        ⊎ IsDouble O.rank_of (seen H.meaning cache.old host.old from) index }
    ensures ran { RanCached H.meaning OrderError.Fault [] cache.old host.old cache.new host.new result }
{
    let body = body_at(host, cache, from, index)?;
    match indexes.insert((order.rank(&body), body.id), index)? {
        None => Ok(()),
        Some(_) => Err(OrderError::Damaged(page_name(from, index))),
    }
}

/// Copies the records of these indexes, in the order of the map, into an empty file.
fn copy<H: Host>(
    host: &mut H,
    cache: &mut Cache,
    indexes: &Indexes,
    from: u64,
    to: u64,
) -> Result<(), OrderError>
    requires from { IsCachedFile from }
    requires to { IsCachedFile to }
    requires differ { from ≢ to }
    requires numbers { All (λ number. number < most_bodies) (values indexes.now) }
    requires few { btree_map_len indexes.now ≤ most_bodies }
    requires in_step { IsInStep H.meaning cache.old host.old }
    requires empty { IsTrue H.meaning.tells → seen H.meaning cache.old host.old to ≡ [] }
    ensures copied { OnOk result (IsTrue H.meaning.tells → (bodies list : List Bodies)
        → HasFirst (seen H.meaning cache.old host.old from) bodies
        → AreIndexesOf bodies (values indexes.now) list
        → IsCopyOf (seen H.meaning cache.old host.old from) bodies
        (seen H.meaning cache.new host.new to) list) }
    ensures page { (name : PageNames) → result ≡ Err (OrderError.Damaged name)
        → (name.file ≡ from) ⊎ (name.file ≡ to) }
    ensures damaged { (name : PageNames) → result ≡ Err (OrderError.Damaged name) → IsTrue H.meaning.tells
        → (bodies list : List Bodies) → HasFirst (seen H.meaning cache.old host.old from) bodies
        → AreIndexesOf bodies (values indexes.now) list → ⊥ }
    ensures ran { RanCached H.meaning OrderError.Fault (to ∷ []) cache.old host.old
        cache.new host.new result }
{
    let mut count = 0;
    for &index in indexes.values() {
        copy_body(host, cache, from, index, to, count)?;
        count += 1;
    }
    Ok(())
}

/// Adds the body of this index, with its kick, to a file that has `count` bodies.
fn copy_body<H: Host>(
    host: &mut H,
    cache: &mut Cache,
    from: u64,
    index: u64,
    to: u64,
    count: u64,
) -> Result<(), OrderError>
    requires from { IsCachedFile from }
    requires index { index < most_bodies }
    requires to { IsCachedFile to }
    requires count { count < most_bodies }
    requires in_step { IsInStep H.meaning cache.old host.old }
    ensures copied { OnOk result (IsTrue H.meaning.tells → (bodies copied : List Bodies) (body : Bodies)
        → HasFirst (seen H.meaning cache.old host.old from) bodies
        → IsCopyOf (seen H.meaning cache.old host.old from) bodies
        (seen H.meaning cache.old host.old to) copied
        → length copied ≡ count → slice_get bodies index ≡ Some body
        → IsCopyOf (seen H.meaning cache.old host.old from) bodies
        (seen H.meaning cache.new host.new to) (copied ++ body ∷ [])) }
    ensures page { (name : PageNames) → result ≡ Err (OrderError.Damaged name)
        → (name.file ≡ from) ⊎ (name.file ≡ to) }
    ensures damaged { (name : PageNames) → result ≡ Err (OrderError.Damaged name) → IsTrue H.meaning.tells
        → (bodies copied : List Bodies) (body : Bodies)
        → HasFirst (seen H.meaning cache.old host.old from) bodies
        → IsCopyOf (seen H.meaning cache.old host.old from) bodies
        (seen H.meaning cache.old host.old to) copied
        → length copied ≡ count → slice_get bodies index ≡ Some body → ⊥ }
    ensures ran { RanCached H.meaning OrderError.Fault (to ∷ []) cache.old host.old
        cache.new host.new result }
{
    let found = kicked_at(host, cache, from, index)?;
    push_body(host, cache, to, count, &found.body, &found.kick)
}

#[cfg(test)]
mod tests;
