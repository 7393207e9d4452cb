//! A bounded cache of pages that lends their bytes.
//!
//! The cache has a view: the files of the host, with pages that were put and not yet written laid over
//! them. Contracts speak of the view, so that they say nothing of when a page is written. This cache writes
//! late: a page that was put is dirty in its frame until it leaves the cache or is flushed. `View` in `specs/`
//! has the view, `Names` the list of resident names, `InStep` when a cache is in step with a host, and
//! `Writes` what calls that take a cache leave alone. `laws` has what keeps a cache in step, beside its own
//! calls.
#![tactic(auto)]

mod cache;
mod cache_error;
mod frame;
mod frames;
mod laws;
mod load;
mod marks;

pub use cache::Cache;
pub use cache_error::CacheError;
pub use laws::{law_cached_files, law_other_files};
pub use marks::{FIRST_CACHED_FILE, LAST_CACHED_FILE};
