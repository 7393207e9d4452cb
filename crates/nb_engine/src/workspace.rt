//! What the ticks of a session work with.

ghost use Rattle.std.specs.Prelude.{◌≡◌, ◌≤◌, ◌^◌, [], IfOk};
ghost use Rattle.nb_host.specs.Image.{Image};
ghost use Rattle.nb_cache.specs.InStep.{IsCoherent};
ghost use Rattle.nb_engine.specs.Sessions.{IsPace};

use crate::going::Pace;
use nb_cache::Cache;
use nb_model::NoMemory;
use nb_order::Sorter;
use nb_tree::Builder;
use nb_walk::Pool;
use std::alloc::Global;

/// What the ticks of a session work with: the pages in memory, the walks, and where a reordering and a build
/// take their memory from.
#[derive(Drop)]
pub(crate) struct Workspace {
    pub(crate) cache: Cache,
    pub(crate) pool: Pool,
    pub(crate) sorter: Sorter,
    pub(crate) builder: Builder,
}

impl Workspace {
    /// A workspace of this pace. It takes all memory for pages and walks at once.
    pub(crate) fn new(alloc: Global, pace: Pace) -> Result<Workspace, NoMemory>
        requires { IsPace pace }
        ensures pages { IfOk result (λ work. work.cache.pages ≡ pace.pages) }
        ensures walks { IfOk result (λ work. work.pool.room ≡ pace.walks) }
        ensures fits { IfOk result (λ work. (image : Image) → IsCoherent work.cache image) }
        ensures written { IfOk result (λ work. work.cache.unwritten ≡ []) }
    {
        Ok(Workspace {
            cache: cache_of(alloc, pace.pages)?,
            pool: Pool::new(alloc, pace.walks as usize)?,
            sorter: Sorter::new(alloc),
            builder: Builder::new(alloc),
        })
    }
}

/// A cache of so many pages. It takes all memory for them at once.
pub(crate) fn cache_of(alloc: Global, pages: u64) -> Result<Cache, NoMemory>
    requires least { 4 ≤ pages }
    requires most { pages ≤ 2 ^ 18 }
    ensures pages { IfOk result (λ cache. cache.pages ≡ pages) }
    ensures fits { IfOk result (λ cache. (image : Image) → IsCoherent cache image) }
    ensures written { IfOk result (λ cache. cache.unwritten ≡ []) }
{
    Cache::new(alloc, pages as usize)
}
