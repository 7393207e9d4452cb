//! Laws over keys. Each is a function that does nothing: its contract is the law, for all numbers, lists of
//! octants and positions.

ghost use Rattle.std.specs.Prelude.{◌≡◌, ℕ, ◌+◌, ◌*◌, ◌/◌, ◌<◌, ◌≤◌, ◌↔◌, IsTrue, List, [], ◌∷◌, ◌++◌, length};
ghost use Rattle.nb_model.specs.declared.body.At.{At};
ghost use Rattle.nb_model.specs.Limits.{deepest_level};
ghost use Rattle.nb_model.specs.Valid.{IsInBox};
ghost use Rattle.nb_model.specs.Octree.{is_same_cell};
ghost use Rattle.nb_key.specs.Morton.{octants_to, key_of, key_at, morton_key, AreOctants, IsKeyAt, first_key, last_key};

/// Keys and lists of octants are one: the key of a list is a key at the level of the list's length, every key
/// is that of one list, and at one level only. One more octant gives a child's key, and one less the
/// parent's.
pub fn law_octants()
    ensures level { (octants : List ℕ) → AreOctants octants → length octants ≤ deepest_level
        → IsKeyAt (length octants) (key_of octants) }
    ensures every { (level key : ℕ) → IsKeyAt level key
        → (octants : List ℕ) × (AreOctants octants × (length octants ≡ level) × (key_of octants ≡ key)) }
    ensures one { (a b key : ℕ) → IsKeyAt a key → IsKeyAt b key → a ≡ b }
    ensures same { (a b : List ℕ) → AreOctants a → AreOctants b → key_of a ≡ key_of b → a ≡ b }
    ensures child { (octants : List ℕ) (octant : ℕ)
        → key_of (octants ++ octant ∷ []) ≡ 8 * key_of octants + octant }
    ensures parent { (octants : List ℕ) (octant : ℕ) → octant < 8
        → key_of (octants ++ octant ∷ []) / 8 ≡ key_of octants }
{}

/// The key of the cell at a level that holds a position is a key at that level, and is that of as many
/// octants.
pub fn law_key_at()
    ensures key { (level : ℕ) (p : At) → level ≤ deepest_level → IsKeyAt level (key_at level p) }
    ensures octants { (level : ℕ) (p : At) → AreOctants (octants_to level p) }
    ensures count { (level : ℕ) (p : At) → length (octants_to level p) ≡ level }
{}

/// The positions of a cell are a range of keys.
pub fn law_range()
    ensures { (level key : ℕ) (p : At) → IsKeyAt level key
        → ((key_at level p ≡ key)
        ↔ ((first_key level key ≤ morton_key p) × (morton_key p ≤ last_key level key))) }
{}

/// Two positions of the box have one key at a level exactly where they lie in one cell there.
pub fn law_same_cell()
    ensures { (level : ℕ) (p q : At) → level ≤ deepest_level → IsInBox p → IsInBox q
        → ((key_at level p ≡ key_at level q) ↔ IsTrue (is_same_cell level p q)) }
{}
