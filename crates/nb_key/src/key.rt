//! The key of a cell.

ghost use Rattle.std.specs.Prelude.{◌≡◌, ℕ, ◌+◌, ◌-◌, ◌*◌, ◌/◌, ◌^◌, ◌<◌, ◌≤◌, ◌↔◌, IsTrue, MatchOption};
ghost use Rattle.nb_model.specs.declared.body.At.{At};
ghost use Rattle.nb_model.specs.Limits.{box_side, deepest_level};
ghost use Rattle.nb_model.specs.Valid.{IsInBox};
ghost use Rattle.nb_model.specs.Octree.{is_same_cell};
ghost use Rattle.nb_key.specs.Morton.{position, key_at, morton_key, IsKey, IsKeyAt, first_key, last_key};

use crate::spread::spread;
use nb_model::{BOX_BITS, DEEPEST_LEVEL};
use std::marker::Model;

/// A coordinate's bits below those that a key tells: the cells of the deepest level have a side of 2^19.
const UNTOLD_BITS: u32 = BOX_BITS - DEEPEST_LEVEL;

/// The bits of an octant: one for each axis.
const OCTANT_BITS: u32 = 3;

/// What a key is divided by to give its parent's: each octant takes one of eight numbers.
const OCTANTS: u64 = 8;

/// The key of the box.
const ROOT: u64 = 1;

/// The place bit of the keys at the deepest level.
const PLACE_BIT: u64 = 1 << (OCTANT_BITS * DEEPEST_LEVEL);

/// The key of a cell: 1, the place bit, and behind it three bits for each octant on the way from the box down
/// to the cell. A contract sees a key as its number.
#[derive(Clone, Copy, PartialEq, Eq, PartialOrd, Ord, Debug)]
pub struct Key {
    number: u64,
}

impl Model for Key {
    ghost use Rattle.std.specs.Prelude.{ℕ};
    ghost use Rattle.nb_key.specs.Morton.{IsKey};

    ghost Value = { ℕ };

    ghost view = { λ k. k.number };

    ghost inverse = { λ n. record { number = n } };

    ghost invariant = { λ k. IsKey k.number };
}

impl Default for Key {
    /// The root's key.
    fn default() -> Self
        ensures { result ≡ 1 }
    {
        Key::root()
    }
}

impl Key {
    /// The key of the root cell, which is the box.
    pub fn root() -> Key
        ensures { result ≡ 1 }
    {
        Key { number: ROOT }
    }

    /// The key of the deepest cell that holds a position, in box units: its Morton key.
    pub fn of(x: u64, y: u64, z: u64) -> Key
        requires x { x < box_side }
        requires y { y < box_side }
        requires z { z < box_side }
        ensures value { result ≡ morton_key (position x y z) }
        ensures deepest { IsKeyAt deepest_level result }
    {
        let x = spread(x >> UNTOLD_BITS);
        let y = spread(y >> UNTOLD_BITS);
        let z = spread(z >> UNTOLD_BITS);
        Key {
            number: PLACE_BIT + 4 * x + 2 * y + z,
        }
    }

    /// The key with this number, where it is a key's.
    pub fn from_number(number: u64) -> Option<Key>
        ensures { MatchOption result (¬ IsKey number) (λ key. (key ≡ number) × IsKey number) }
    {
        if number == 0 {
            return None;
        }
        if number.leading_zeros() % OCTANT_BITS != 0 {
            return None;
        }
        Some(Key { number })
    }

    /// The key as a number.
    pub fn number(self) -> u64
        ensures number { result ≡ self }
        ensures key { IsKey result }
    {
        self.number
    }

    /// The level of the cell: 0 for the box, 21 for the deepest.
    pub fn level(self) -> u32
        ensures { IsKeyAt result self }
    {
        DEEPEST_LEVEL - self.number.leading_zeros() / OCTANT_BITS
    }

    /// The key of the cell of which this one is an octant; None for the root.
    pub fn parent(self) -> Option<Key>
        ensures { MatchOption result (self ≡ 1) (λ parent. (1 < self) × (parent ≡ self / 8)) }
    {
        if self.number == ROOT {
            return None;
        }
        Some(Key {
            number: self.number / OCTANTS,
        })
    }

    /// The key of one of the eight octants of a cell that isn't at the deepest level.
    pub fn child(self, octant: u8) -> Key
        requires level { self < 8 ^ deepest_level }
        requires octant { octant < 8 }
        ensures { result ≡ 8 * self + octant }
    {
        Key {
            number: OCTANTS * self.number + u64::from(octant),
        }
    }

    /// Whether the cell holds a position, in box units.
    pub fn contains(self, x: u64, y: u64, z: u64) -> bool
        requires x { x < box_side }
        requires y { y < box_side }
        requires z { z < box_side }
        ensures cell { (level : ℕ) → IsKeyAt level self
            → (IsTrue result ↔ (key_at level (position x y z) ≡ self)) }
        ensures range { (level : ℕ) → IsKeyAt level self
            → (IsTrue result
            ↔ ((first_key level self ≤ morton_key (position x y z))
            × (morton_key (position x y z) ≤ last_key level self))) }
        ensures same { (level : ℕ) (p : At) → IsKeyAt level self → IsInBox p → key_at level p ≡ self
            → (IsTrue result ↔ IsTrue (is_same_cell level (position x y z) p)) }
    {
        Key::of(x, y, z).number >> self.bits_below() == self.number
    }

    /// The least key at the deepest level under the cell, as a number.
    pub fn first(self) -> u64
        ensures { (level : ℕ) → IsKeyAt level self → result ≡ first_key level self }
    {
        self.number << self.bits_below()
    }

    /// The greatest key at the deepest level under the cell, as a number.
    pub fn last(self) -> u64
        ensures { (level : ℕ) → IsKeyAt level self → result ≡ last_key level self }
    {
        self.first() + ((1 << self.bits_below()) - 1)
    }

    /// How many bits the keys at the deepest level have below this key's.
    fn bits_below(self) -> u32
        ensures bits { (level : ℕ) → IsKeyAt level self → result ≡ 3 * (deepest_level - level) }
        ensures key { IsKey self }
    {
        OCTANT_BITS * (DEEPEST_LEVEL - self.level())
    }
}
