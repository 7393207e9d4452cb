//! Which files were put into.

ghost use Rattle.std.specs.Prelude.{◌≡◌, ◌≢◌, ℕ, ◌↔◌, ◌⊎◌, [], Contains};
ghost use Rattle.nb_cache.specs.InStep.{IsCachedFile};

use std::marker::Model;

/// The first of the files whose pages go through a cache.
pub const FIRST_CACHED_FILE: u64 = 3;

/// The last of them.
pub const LAST_CACHED_FILE: u64 = 7;

/// How many they are.
const CACHED_FILES: usize = (LAST_CACHED_FILE - FIRST_CACHED_FILE) as usize + 1;

/// A mark for each file that goes through a cache. A contract sees the list of the marked files.
#[derive(Drop)]
pub(crate) struct Marks {
    marked: [bool; CACHED_FILES],
}

impl Model for Marks {
    ghost use Rattle.std.specs.Prelude.{List, ℕ};
    ghost use Rattle.nb_cache.specs.Marks.{marked_files};

    ghost Value = { List ℕ };

    ghost view = { λ m. marked_files m.marked };
}

impl Marks {
    /// No file is marked.
    pub(crate) fn new() -> Marks
        ensures { result ≡ [] }
    {
        Marks {
            marked: [false; CACHED_FILES],
        }
    }

    /// Marks a file.
    pub(crate) fn mark(&mut self, file: u64)
        requires { IsCachedFile file }
        ensures { (other : ℕ) → (Contains self.new other ↔ ((other ≡ file) ⊎ Contains self.old other)) }
    {
        self.marked[(file - FIRST_CACHED_FILE) as usize] = true;
    }

    /// Takes the mark from a file.
    pub(crate) fn unmark(&mut self, file: u64)
        requires { IsCachedFile file }
        ensures { (other : ℕ) → (Contains self.new other ↔ (Contains self.old other × (other ≢ file))) }
    {
        self.marked[(file - FIRST_CACHED_FILE) as usize] = false;
    }

    /// Takes the marks from all files.
    pub(crate) fn clear(&mut self)
        ensures { self.new ≡ [] }
    {
        self.marked = [false; CACHED_FILES];
    }
}
