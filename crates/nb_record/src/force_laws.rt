//! Laws of the forces that bodies and cells give, and of ticks. Each is a function that does nothing: its
//! contract is the law, for all positions and lists of bodies.

ghost use Rattle.std.specs.Prelude.{◌≡◌, ◌≢◌, ◌⊎◌, ℕ, ◌+◌, ◌*◌, ◌≤◌, true, false};
ghost use Rattle.std.specs.Prelude.{List, ◌∷◌, ◌++◌, map, All, IsPermutation};
ghost use Rattle.nb_model.specs.declared.body.At.{At};
ghost use Rattle.nb_model.specs.declared.body.V3.{V3};
ghost use Rattle.nb_model.specs.declared.body.Body.{Body};
ghost use Rattle.nb_model.specs.declared.params.Params.{Params};
ghost use Rattle.nb_model.specs.declared.way.Way.{Way};
ghost use Rattle.nb_model.specs.Limits.{deepest_level};
ghost use Rattle.nb_model.specs.Valid.{IsInBox};
ghost use Rattle.nb_model.specs.Vector.{zero_vector, plus, vector_sum};
ghost use Rattle.nb_model.specs.Gravity.{direct_sum, force_on, is_far, octants, pull};
ghost use Rattle.nb_model.specs.Leapfrog.{unescaped, half_kick, kick, drift, step};
ghost use Rattle.nb_key.specs.Morton.{key_at};
ghost use Rattle.nb_record.specs.declared.cell.Cell.{Cell};
ghost use Rattle.nb_record.specs.Order.{by_key, sorted_by, HaveDifferentIds};
ghost use Rattle.nb_record.specs.Cells.{in_cell, IsTreeCell};

/// Vectors add up in any order and in any groups, so the parts of a sum are sums of their own.
pub fn law_vector_sums()
    ensures zero { (a : V3) → plus a zero_vector ≡ a }
    ensures exchange { (a b : V3) → plus a b ≡ plus b a }
    ensures regroup { (a b c : V3) → plus (plus a b) c ≡ plus a (plus b c) }
    ensures more { (v : V3) (vs : List V3) → vector_sum (v ∷ vs) ≡ plus v (vector_sum vs) }
    ensures append { (vs ws : List V3) → vector_sum (vs ++ ws) ≡ plus (vector_sum vs) (vector_sum ws) }
    ensures same { (vs ws : List V3) → IsPermutation vs ws → vector_sum vs ≡ vector_sum ws }
{}

/// The force of a list of bodies is that of the same bodies in any other order: where they pull one by one,
/// where they are the bodies of a cell, and where they are those in the box.
pub fn law_same_force()
    ensures direct { (params : Params) (p : At) (a b : List Body) → IsPermutation a b
        → direct_sum params p a ≡ direct_sum params p b }
    ensures cell { (params : Params) (p : At) (level key : ℕ) (a b : List Body) → level ≤ deepest_level
        → All (λ body. IsInBox body.at) a → IsPermutation a b
        → force_on params p level (in_cell level key a) ≡ force_on params p level (in_cell level key b) }
    ensures whole { (params : Params) (p : At) (a b : List Body)
        → All (λ body. IsInBox body.at) a → IsPermutation a b
        → force_on params p 0 (unescaped a) ≡ force_on params p 0 (unescaped b) }
{}

/// What a cell of the tree gives, by the opening criterion and what its record says: one pull where it is
/// taken, and where it is opened what its bodies give one by one, if it has no kids, or what the cells of its
/// octants give.
pub fn law_cell_force()
    ensures taken { (params : Params) (bodies : List Body) (p : At) (level : ℕ) (cell : Cell)
        → All (λ b. IsInBox b.at) bodies → IsInBox p → IsTreeCell params (unescaped bodies) level cell
        → key_at level p ≢ cell.key → is_far params p level cell.centre ≡ true
        → force_on params p level (in_cell level cell.key (unescaped bodies))
        ≡ pull params p cell.mass cell.centre }
    ensures leaf { (params : Params) (bodies : List Body) (p : At) (level : ℕ) (cell : Cell)
        → All (λ b. IsInBox b.at) bodies → IsInBox p → IsTreeCell params (unescaped bodies) level cell
        → (key_at level p ≡ cell.key) ⊎ (is_far params p level cell.centre ≡ false) → cell.kids ≡ 0
        → force_on params p level (in_cell level cell.key (unescaped bodies))
        ≡ direct_sum params p (in_cell level cell.key (unescaped bodies)) }
    ensures divided { (params : Params) (bodies : List Body) (p : At) (level : ℕ) (cell : Cell)
        → All (λ b. IsInBox b.at) bodies → IsInBox p → IsTreeCell params (unescaped bodies) level cell
        → (key_at level p ≡ cell.key) ⊎ (is_far params p level cell.centre ≡ false) → cell.kids ≢ 0
        → let below = λ (octant : ℕ). in_cell (level + 1) (8 * cell.key + octant) (unescaped bodies) in
        force_on params p level (in_cell level cell.key (unescaped bodies))
        ≡ vector_sum (map (λ octant. force_on params p (level + 1) (below octant)) octants) }
{}

/// A tick of a list, and each part of it, makes of the same bodies in any other order the same bodies, so the
/// list that it makes has one order. A kick moves no body, so it leaves a list in Morton order as it stands.
pub fn law_same_step()
    ensures force { (params : Params) (a b : List Body) (body : Body)
        → All (λ c. IsInBox c.at) a → IsPermutation a b
        → half_kick params a body ≡ half_kick params b body }
    ensures kick { (params : Params) (way : Way) (a b : List Body)
        → All (λ c. IsInBox c.at) a → IsPermutation a b
        → IsPermutation (kick params way a) (kick params way b) }
    ensures drift { (params : Params) (way : Way) (a b : List Body) → IsPermutation a b
        → IsPermutation (drift params way a) (drift params way b) }
    ensures step { (params : Params) (way : Way) (a b : List Body)
        → All (λ c. IsInBox c.at) a → IsPermutation a b
        → IsPermutation (step params way a) (step params way b) }
    ensures order { (params : Params) (way : Way) (rank : Body → ℕ) (a b : List Body)
        → All (λ c. IsInBox c.at) a → HaveDifferentIds a → IsPermutation a b
        → sorted_by rank (step params way a) ≡ sorted_by rank (step params way b) }
    ensures sorted { (params : Params) (way : Way) (bodies : List Body)
        → All (λ c. IsInBox c.at) bodies
        → kick params way (sorted_by by_key bodies) ≡ sorted_by by_key (kick params way bodies) }
{}
