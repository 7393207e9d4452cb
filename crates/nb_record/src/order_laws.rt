//! Laws of the order of bodies, and of the bodies of a cell in it. Each is a function that does nothing: its
//! contract is the law, for all lists of bodies.

ghost use Rattle.std.specs.Prelude.{◌≡◌, ◌≢◌, ◌↔◌, ℕ, ◌+◌, ◌*◌, ◌<◌, ◌≤◌, Bool, true, false};
ghost use Rattle.std.specs.Prelude.{List, [], length, take, drop, filter, sum_by, slice_get, Some};
ghost use Rattle.std.specs.Prelude.{All, Contains, IsPermutation};
ghost use Rattle.std.specs.List.Sorted.{IsNonDecreasingBy};
ghost use Rattle.nb_model.specs.declared.body.Body.{Body};
ghost use Rattle.nb_model.specs.Limits.{deepest_level};
ghost use Rattle.nb_model.specs.Octree.{in_octant, total_mass};
ghost use Rattle.nb_model.specs.Gravity.{octants};
ghost use Rattle.nb_model.specs.Leapfrog.{unescaped};
ghost use Rattle.nb_key.specs.Morton.{key_at, IsKeyAt};
ghost use Rattle.nb_record.specs.Order.{by_key, sorted_by, HaveDifferentIds};
ghost use Rattle.nb_record.specs.Cells.{first_body, in_cell};

/// In Morton order the unescaped bodies come first, in the order that they have without the others, and
/// behind them those that have left it. Ranks don't fall along a sorted list. Where ids differ, bodies that a
/// test chooses have the order that they have among all, and the sorted list depends on no order.
pub fn law_order()
    ensures front { (bodies : List Body)
        → take (length (unescaped bodies)) (sorted_by by_key bodies) ≡ sorted_by by_key (unescaped bodies) }
    ensures back { (bodies : List Body)
        → drop (length (unescaped bodies)) (sorted_by by_key bodies)
        ≡ sorted_by by_key (filter (λ b. b.out) bodies) }
    ensures present { (bodies : List Body)
        → All (λ b. b.out ≡ false) (take (length (unescaped bodies)) (sorted_by by_key bodies)) }
    ensures index { (bodies : List Body) (j : ℕ) → j < length (unescaped bodies)
        → slice_get (sorted_by by_key bodies) j ≡ slice_get (sorted_by by_key (unescaped bodies)) j }
    ensures escaped { (bodies : List Body)
        → All (λ b. b.out ≡ true) (drop (length (unescaped bodies)) (sorted_by by_key bodies)) }
    ensures stays { (bodies : List Body)
        → unescaped (sorted_by by_key bodies) ≡ sorted_by by_key (unescaped bodies) }
    ensures rising { (rank : Body → ℕ) (bodies : List Body)
        → IsNonDecreasingBy rank (sorted_by rank bodies) }
    ensures same { (rank : Body → ℕ) (a b : List Body) → HaveDifferentIds a → IsPermutation a b
        → sorted_by rank a ≡ sorted_by rank b }
    ensures chosen { (rank : Body → ℕ) (test : Body → Bool) (bodies : List Body)
        → HaveDifferentIds bodies
        → filter test (sorted_by rank bodies) ≡ sorted_by rank (filter test bodies) }
{}

/// The root cell has all bodies, and a cell's octants have those of its bodies that lie in them. The bodies
/// of a cell that isn't empty are one range of the order: behind the bodies whose keys are below theirs, as
/// many as the cell has, so that a body's index tells whether it is one of them. The octants follow one
/// another: the range of each begins where those of the octants before it end, which is the end of the last
/// before it that isn't empty.
pub fn law_in_cell()
    ensures root { (bodies : List Body) → in_cell 0 1 bodies ≡ bodies }
    ensures octant { (level key octant : ℕ) (bodies : List Body) → octant < 8
        → in_octant level (in_cell level key bodies) octant ≡ in_cell (level + 1) (8 * key + octant) bodies }
    ensures member { (level key : ℕ) (bodies : List Body) (b : Body)
        → (Contains (in_cell level key bodies) b ↔ (Contains bodies b × (key_at level b.at ≡ key))) }
    ensures range { (level key : ℕ) (bodies : List Body) → IsKeyAt level key
        → let all = unescaped bodies in let cell = in_cell level key all in cell ≢ []
        → take (length cell) (drop (first_body all cell) (sorted_by by_key all)) ≡ sorted_by by_key cell }
    ensures sums { (f : Body → ℕ) (level key : ℕ) (bodies : List Body) → IsKeyAt level key
        → let all = unescaped bodies in let cell = in_cell level key all in cell ≢ []
        → sum_by f (take (length cell) (drop (first_body all cell) (sorted_by by_key all))) ≡ sum_by f cell }
    ensures within { (level key : ℕ) (bodies : List Body) → IsKeyAt level key
        → let all = unescaped bodies in let cell = in_cell level key all in cell ≢ []
        → first_body all cell + length cell ≤ length all }
    ensures index { (level key : ℕ) (bodies : List Body) → IsKeyAt level key
        → let all = unescaped bodies in let cell = in_cell level key all in cell ≢ []
        → (j : ℕ) (b : Body) → slice_get (sorted_by by_key all) j ≡ Some b
        → ((key_at level b.at ≡ key)
        ↔ ((first_body all cell ≤ j) × (j < first_body all cell + length cell))) }
    ensures follows { (level key octant : ℕ) (bodies : List Body) → IsKeyAt level key
        → level < deepest_level → octant < 8
        → let all = unescaped bodies in let cell = in_cell level key all in in_octant level cell octant ≢ []
        → first_body all (in_octant level cell octant)
        ≡ first_body all cell + sum_by (λ o. length (in_octant level cell o)) (take octant octants) }
    ensures next { (level key octant later : ℕ) (bodies : List Body) → IsKeyAt level key
        → level < deepest_level → octant < later → later < 8
        → let all = unescaped bodies in let cell = in_cell level key all in in_octant level cell octant ≢ []
        → in_octant level cell later ≢ []
        → ((between : ℕ) → octant < between → between < later → in_octant level cell between ≡ [])
        → first_body all (in_octant level cell later)
        ≡ first_body all (in_octant level cell octant) + length (in_octant level cell octant) }
{}

/// The octants of a cell share out its bodies, so a sum over them is the sum over its octants: the mass, the
/// count, and any other.
pub fn law_octant_sums()
    ensures mass { (level : ℕ) (bodies : List Body)
        → sum_by (λ octant. total_mass (in_octant level bodies octant)) octants ≡ total_mass bodies }
    ensures count { (level : ℕ) (bodies : List Body)
        → sum_by (λ octant. length (in_octant level bodies octant)) octants ≡ length bodies }
    ensures any { (f : Body → ℕ) (level : ℕ) (bodies : List Body)
        → sum_by (λ octant. sum_by f (in_octant level bodies octant)) octants ≡ sum_by f bodies }
{}
