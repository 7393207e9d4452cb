//! Items that walks share.

ghost use Rattle.std.specs.Prelude.{◌≡◌, ℕ, ◌+◌, ◌<◌, ◌≤◌, ◌^◌, ◌==◌, if◌then◌else◌, true, [], ◌∷◌, ◌++◌, None, IfSome, vec_capacity};
ghost use Rattle.nb_walk.specs.Shared.{in_set, is_left_to};

use crate::item::Item;

/// How many walks can share an item: one for each bit of a set.
pub(crate) const BLOCK: usize = 64;

/// An item, and the walks that have it left: a set of those whose numbers lie in one block of 64.
#[derive(Clone, Copy, PartialEq, Eq, Debug)]
pub(crate) struct SharedItem {
    pub(crate) item: Item,
    /// The number of the block, from 0: it holds the walks from 64 times it on.
    pub(crate) block: usize,
    /// The set: bit k stands for the block's walk k.
    pub(crate) walks: u64,
}

/// Takes the last of some shared items.
pub(crate) fn take_one(entries: &mut Vec<SharedItem>) -> Option<SharedItem>
    ensures some { IfSome result (λ e. entries.old.items ≡ entries.new.items ++ e ∷ []) }
    ensures none { result ≡ None → (entries.old.items ≡ []) × (entries.new.items ≡ []) }
    ensures capacity { vec_capacity entries.old ≤ vec_capacity entries.new }
{
    entries.pop()
}

/// Whether the block's walk k is in a set.
pub(crate) fn has(walks: u64, k: usize) -> bool
    requires { k < BLOCK }
    ensures { result ≡ in_set walks k }
{
    (walks >> k) % 2 == 1
}

/// Whether walk i has an item left.
pub(crate) fn is_left(entry: &SharedItem, i: usize) -> bool
    ensures { result ≡ is_left_to i entry.now }
{
    entry.block == i / BLOCK && has(entry.walks, i % BLOCK)
}

/// A set with one walk more, which comes behind all that it has.
pub(crate) fn with(walks: u64, k: usize) -> u64
    requires k { k < BLOCK }
    requires below { walks < 2 ^ k }
    ensures sets { (j : ℕ) → in_set result j ≡ (if j == k then true else in_set walks j) }
    ensures below { result < 2 ^ (k + 1) }
{
    walks + (1 << k)
}
