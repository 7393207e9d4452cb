//! Laws of every cache over every host, and the files that go through a cache. Each is a function that does
//! nothing: its contract is the law.

ghost use Rattle.std.specs.Prelude.{◌≡◌, ℕ, List, Contains, IsTrue};
ghost use Rattle.nb_host.specs.Crashes.{AgreesOutside};
ghost use Rattle.nb_host.specs.Meaning.{Leads};
ghost use Rattle.nb_cache.specs.InStep.{IsCachedFile, IsInStep};
ghost use Rattle.nb_cache.specs.View.{CacheValue, seen};

use crate::marks::{FIRST_CACHED_FILE, LAST_CACHED_FILE};
use nb_host::Host;

/// Calls of a host that leave every file that goes through a cache as it is keep the cache in step, and so does
/// each call that changes only other files. Then the view of a cached file stays too.
pub fn law_other_files<H: Host>()
    ensures same { (cache : CacheValue) (old new : H) → (IsTrue H.meaning.tells → (file : ℕ) → IsCachedFile file
        → (H.meaning.contents new).file file ≡ (H.meaning.contents old).file file)
        → IsInStep H.meaning cache old → IsInStep H.meaning cache new }
    ensures others { (cache : CacheValue) (files : List ℕ) (old new : H)
        → ((file : ℕ) → Contains files file → IsCachedFile file → ⊥)
        → Leads H.meaning (AgreesOutside files) old new → IsInStep H.meaning cache old
        → IsInStep H.meaning cache new }
    ensures view { (cache : CacheValue) (files : List ℕ) (old new : H) (file : ℕ) → (Contains files file → ⊥)
        → Leads H.meaning (AgreesOutside files) old new → IsTrue H.meaning.tells
        → seen H.meaning cache new file ≡ seen H.meaning cache old file }
{}

/// The files that go through a cache are those from 3 to 7.
pub fn law_cached_files()
    ensures first { FIRST_CACHED_FILE ≡ 3 }
    ensures last { LAST_CACHED_FILE ≡ 7 }
{}
