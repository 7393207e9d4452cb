//! Walks that wait for their pages together, over a cache.

ghost use Rattle.std.specs.Prelude.{◌≡◌, ◌≢◌, ◌≤◌, ◌<◌, List, [], length, All, Contains, OnOk, IfOk, IsOk, Err, IsTrue, ◌⊎◌};
ghost use Rattle.nb_host.specs.Image.{Image};
ghost use Rattle.nb_host.specs.Page.{IsRising};
ghost use Rattle.nb_host.specs.declared.page_name.PageName.{PageName as PageNames};
ghost use Rattle.nb_model.specs.declared.body.Body.{Body as Bodies};
ghost use Rattle.nb_model.specs.Limits.{kick_limit};
ghost use Rattle.nb_model.specs.Valid.{IsBelow};
ghost use Rattle.nb_cache.specs.InStep.{IsCachedFile, IsCacheable, IsInStep, IsCoherent};
ghost use Rattle.nb_cache.specs.View.{names_of, seen, view_of, IsWhole};
ghost use Rattle.nb_cache.specs.Writes.{RanCached};
ghost use Rattle.nb_record.specs.Tree.{IsTreeOf};
ghost use Rattle.nb_walk.specs.Pool.{targets, sums, pool_bound, AreSumsInRange, AreOn, HaveForces, IsWanted};
ghost use Rattle.nb_walk.specs.Shown.{IsWalkable};
ghost use Rattle.nb_force.specs.Groups.{AreBegun, IsBrokenTree};
ghost use Rattle.nb_force.specs.Rounds.{KeepsWalks, HasPaused, HasOneOf};

use crate::force_error::ForceError;
use crate::window::Window;
use nb_cache::Cache;
use nb_host::Host;
use nb_model::Params;
use nb_record::Tree;
use nb_walk::Pool;

/// Has the walks of a pool, which were just begun, go on until all are finished, in rounds: an advance, and a
/// fetch of the least names of the pages that they wait for, as many as the cache has pages.
pub(crate) fn finish<H: Host>(
    host: &mut H,
    cache: &mut Cache,
    pool: &mut Pool,
    params: &Params,
    tree: &Tree,
) -> Result<(), ForceError>
    requires tree { IsWalkable params.now tree.now }
    requires files { IsCachedFile tree.now.bodies × IsCachedFile tree.now.cells }
    requires begun { AreBegun pool.old.walks }
    requires in_step { IsInStep H.meaning cache.old host.old }
    ensures room { pool.new.room ≡ pool.old.room }
    ensures targets { targets pool.new.walks ≡ targets pool.old.walks }
    ensures range { OnOk result (All (IsBelow kick_limit) (sums pool.new.walks)) }
    ensures forces { OnOk result (IsTrue H.meaning.tells → (bodies : List Bodies)
        → IsTreeOf tree.now (seen H.meaning cache.old host.old) params.now bodies
        → HaveForces params.now bodies pool.new.walks) }
    ensures damaged { (name : PageNames) → result ≡ Err (ForceError.Damaged name)
        → IsBrokenTree H.meaning params.now tree.now cache.old host.old name }
    ensures ran { RanCached H.meaning ForceError.Fault [] cache.old host.old cache.new host.new result }
{
    let mut done = advance(cache, pool, params, tree)?;
    while !done {
        fetch_wanted(host, cache, pool)?;
        done = advance(cache, pool, params, tree)?;
    }
    Ok(())
}

/// Has each walk go on over the resident pages, and answers whether all are finished.
fn advance(cache: &Cache, pool: &mut Pool, params: &Params, tree: &Tree) -> Result<bool, ForceError>
    requires tree { IsWalkable params.now tree.now }
    requires range { AreSumsInRange params.now pool.old.walks }
    ensures kept { KeepsWalks params.now tree.now pool.old pool.new }
    ensures paused { IfOk result (HasPaused cache.now tree.now pool.new) }
    ensures lower { (wants : List PageNames) (name : PageNames) → IsWanted tree.now pool.old.walks wants
        → Contains wants name → Contains (names_of cache.now) name
        → OnOk result (pool_bound tree.now pool.new.walks < pool_bound tree.now pool.old.walks) }
    ensures tree { (image : Image) (bodies : List Bodies) → IsCoherent cache.now image
        → IsTreeOf tree.now (view_of cache.now image) params.now bodies
        → AreOn params.now bodies tree.now (view_of cache.now image tree.now.cells) pool.old.walks
        → IsOk result
        × AreOn params.now bodies tree.now (view_of cache.now image tree.now.cells) pool.new.walks }
    ensures file { (name : PageNames) → result ≡ Err (ForceError.Damaged name)
        → (name.file ≡ tree.now.bodies) ⊎ (name.file ≡ tree.now.cells) }
    ensures no_fault { result ≢ Err ForceError.Fault }
{
    let _ = cache.pages();
    let window = Window {
        cache,
        bodies: tree.bodies,
        cells: tree.cells,
    };
    match pool.advance(params, tree, &window) {
        Ok(done) => Ok(done),
        Err(name) => Err(ForceError::Damaged(name)),
    }
}

/// Makes the least of the pages resident that the walks wait for, as many as the cache has pages.
fn fetch_wanted<H: Host>(host: &mut H, cache: &mut Cache, pool: &Pool) -> Result<(), ForceError>
    requires some { 1 ≤ length pool.now.wants }
    requires rising { IsRising pool.now.wants }
    requires names { All IsCacheable pool.now.wants }
    requires in_step { IsInStep H.meaning cache.old host.old }
    ensures resident { OnOk result (HasOneOf pool.now.wants cache.new) }
    ensures named { (name : PageNames) → result ≡ Err (ForceError.Damaged name)
        → Contains pool.now.wants name }
    ensures short { (name : PageNames) → result ≡ Err (ForceError.Damaged name) → IsTrue H.meaning.tells
        → ¬ IsWhole cache.old (H.meaning.contents host.old) name }
    ensures ran { RanCached H.meaning ForceError.Fault [] cache.old host.old cache.new host.new result }
{
    let wants = pool.wants();
    let count = wants.len().min(cache.pages());
    cache.fetch(host, &wants[..count])?;
    Ok(())
}
