//! Laws of walks. Each is a function that does nothing: its contract is the law, for all lists of bodies.

ghost use Rattle.std.specs.Prelude.{◌≡◌, ℕ, [], List, Option, sum_by, All, Contains};
ghost use Rattle.nb_model.specs.declared.body.At.{At};
ghost use Rattle.nb_model.specs.declared.body.Body.{Body};
ghost use Rattle.nb_model.specs.declared.params.Params.{Params};
ghost use Rattle.nb_model.specs.Gravity.{force_on};
ghost use Rattle.nb_model.specs.Leapfrog.{unescaped};
ghost use Rattle.nb_model.specs.Valid.{IsInBox};
ghost use Rattle.nb_host.specs.declared.page_name.PageName.{PageName};
ghost use Rattle.nb_host.specs.Page.{HasPage};
ghost use Rattle.nb_record.specs.declared.tree.Tree.{Tree};
ghost use Rattle.nb_record.specs.Tree.{IsTreeOf};
ghost use Rattle.nb_walk.specs.declared.item.Item.{Item};
ghost use Rattle.nb_walk.specs.Angle.{by_angle};
ghost use Rattle.nb_walk.specs.Terms.{Acceptance, interaction_list, pulls, term_mass};
ghost use Rattle.nb_walk.specs.Items.{in_order, root_items, remaining_terms, remaining_force, remaining_mass};
ghost use Rattle.nb_walk.specs.Left.{AreItemsOf};
ghost use Rattle.nb_walk.specs.Page.{IsShown};
ghost use Rattle.nb_walk.specs.Walk.{WalkValue, new_walk, IsWalkOn};
ghost use Rattle.nb_walk.specs.Pool.{PooledWalk, with_walk, AreSumsInRange, AreWithin, AreOn, AreFinished, IsSettled, IsWanted, CanGoOn, Called, HaveForces};

/// A new walk has the whole interaction list of the unescaped bodies, in Morton order, still to come. By the
/// opening angle the list gives what the definition's recursion gives.
pub fn law_interaction_list()
    ensures start { (accepts : Acceptance) (leaf : ℕ) (bodies : List Body)
        → remaining_terms accepts leaf bodies root_items ≡ interaction_list accepts leaf (in_order bodies) }
    ensures force { (params : Params) (p : At) (bodies : List Body) → IsInBox p
        → All (λ b. IsInBox b.at) bodies
        → pulls params p (interaction_list
        (λ key mass centre. by_angle params p key centre) params.leaf (in_order bodies))
        ≡ force_on params p 0 (unescaped bodies) }
{}

/// The terms to come of a tree's items pull as their cells and their bodies do, in whatever order these are
/// taken, and by any opening they have the mass of the bodies that are left.
pub fn law_remaining()
    ensures force { (params : Params) (bodies : List Body) (tree : Tree) (file : List ℕ) (p : At)
        (items : List Item) → IsInBox p → All (λ b. IsInBox b.at) bodies
        → AreItemsOf params bodies tree file items
        → pulls params p (remaining_terms
        (λ key mass centre. by_angle params p key centre) params.leaf bodies items)
        ≡ remaining_force params bodies p items }
    ensures mass { (accepts : Acceptance) (leaf : ℕ) (bodies : List Body) (items : List Item)
        → sum_by term_mass (remaining_terms accepts leaf bodies items) ≡ remaining_mass bodies items }
{}

/// A new walk is on its way over each tree. One that is on its way and has nothing left has the definition's
/// force on its target.
pub fn law_walk()
    ensures begun { (params : Params) (bodies : List Body) (tree : Tree) (files : ℕ → List ℕ) (p : At)
        → IsTreeOf tree files params bodies
        → IsWalkOn params bodies tree (files tree.cells) (new_walk p) }
    ensures finished { (params : Params) (bodies : List Body) (tree : Tree) (file : List ℕ) (w : WalkValue)
        → IsWalkOn params bodies tree file w → w.items ≡ []
        → w.sum ≡ force_on params w.target 0 (unescaped bodies) }
{}

/// A walk more is on its way as the others are, in range, and within any mass. Over a tree each wanted page
/// is whole in its file, and where one is shown, a walk can go on. After any calls of `begin` and `advance`
/// over a tree, with whatever pages shown, the sums are the forces once all walks are finished.
pub fn law_pool()
    ensures begun { (params : Params) (bodies : List Body) (tree : Tree) (files : ℕ → List ℕ) (p : At)
        (walks : List PooledWalk) → IsTreeOf tree files params bodies
        → AreOn params bodies tree (files tree.cells) walks
        → AreOn params bodies tree (files tree.cells) (with_walk p walks) }
    ensures range { (params : Params) (p : At) (walks : List PooledWalk) → AreSumsInRange params walks
        → AreSumsInRange params (with_walk p walks) }
    ensures within { (most : ℕ) (p : At) (walks : List PooledWalk) → AreWithin most walks
        → AreWithin most (with_walk p walks) }
    ensures whole { (cells bodies_shown : ℕ → Option (List ℕ)) (params : Params) (bodies : List Body)
        (tree : Tree) (files : ℕ → List ℕ) (walks : List PooledWalk) (wants : List PageName)
        → IsTreeOf tree files params bodies → AreOn params bodies tree (files tree.cells) walks
        → All (IsSettled cells bodies_shown tree) walks → IsWanted tree walks wants
        → All (λ name. HasPage (files name.file) name.page) wants }
    ensures goes_on { (cells bodies : ℕ → Option (List ℕ)) (tree : Tree) (walks : List PooledWalk)
        (wants : List PageName) (name : PageName) → IsWanted tree walks wants → Contains wants name
        → IsShown cells bodies tree name → CanGoOn cells bodies tree walks }
    ensures finished { (params : Params) (bodies : List Body) (tree : Tree) (file : List ℕ)
        (walks : List PooledWalk) → AreOn params bodies tree file walks → AreFinished walks
        → HaveForces params bodies walks }
    ensures called { (params : Params) (bodies : List Body) (tree : Tree) (files : ℕ → List ℕ)
        (walks : List PooledWalk) → IsTreeOf tree files params bodies → Called params bodies tree files walks
        → AreFinished walks → HaveForces params bodies walks }
{}
