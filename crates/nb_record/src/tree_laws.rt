//! Laws of the cells of a tree. Each is a function that does nothing: its contract is the law, for all lists
//! of bodies.

ghost use Rattle.std.specs.Prelude.{◌≡◌, ◌≢◌, ◌⊎◌, ◌↔◌, ℕ, ◌+◌, ◌*◌, ◌/◌, ◌%◌, ◌^◌, ◌<◌, ◌≤◌};
ghost use Rattle.std.specs.Prelude.{List, [], length, take, drop, sum_by};
ghost use Rattle.std.specs.Prelude.{All, AllPairs, Contains, IsPermutation};
ghost use Rattle.nb_model.specs.declared.body.At.{At};
ghost use Rattle.nb_model.specs.declared.body.Body.{Body};
ghost use Rattle.nb_model.specs.declared.params.Params.{Params};
ghost use Rattle.nb_model.specs.declared.way.Way.{Way};
ghost use Rattle.nb_model.specs.Limits.{deepest_level, most_bodies};
ghost use Rattle.nb_model.specs.Valid.{IsValidBody};
ghost use Rattle.nb_model.specs.Octree.{in_octant, total_mass};
ghost use Rattle.nb_model.specs.Gravity.{direct_sum};
ghost use Rattle.nb_model.specs.Leapfrog.{unescaped, kick};
ghost use Rattle.nb_key.specs.Morton.{IsKeyAt};
ghost use Rattle.nb_record.specs.declared.cell.Cell.{Cell};
ghost use Rattle.nb_record.specs.declared.tree.Tree.{Tree};
ghost use Rattle.nb_record.specs.Records.{IsCell};
ghost use Rattle.nb_record.specs.Order.{by_key, sorted_by};
ghost use Rattle.nb_record.specs.Cells.{in_cell, kids_of, tree_cells, IsTreeCell};
ghost use Rattle.nb_record.specs.Table.{IsCellTable};
ghost use Rattle.nb_record.specs.Tree.{IsTreeOf};

/// The tree has exactly the cells that have bodies and are the root or an octant of a divided cell. Their
/// keys differ, so a key tells the cell and its level, and any list of exactly these cells is the tree's but
/// for the order.
pub fn law_tree_cells()
    ensures exactly { (params : Params) (bodies : List Body) (cell : Cell)
        → (Contains (tree_cells params bodies) cell
        ↔ ((level : ℕ) × IsTreeCell params (unescaped bodies) level cell)) }
    ensures distinct { (params : Params) (bodies : List Body)
        → AllPairs (λ a b. a.key ≢ b.key) (tree_cells params bodies) }
    ensures one { (params : Params) (bodies : List Body) (a b : Cell)
        → Contains (tree_cells params bodies) a → Contains (tree_cells params bodies) b
        → a.key ≡ b.key → a ≡ b }
    ensures level { (params : Params) (bodies : List Body) (level : ℕ) (cell : Cell)
        → Contains (tree_cells params bodies) cell → IsKeyAt level cell.key
        → IsTreeCell params (unescaped bodies) level cell }
    ensures list { (params : Params) (bodies : List Body) (cells : List Cell)
        → AllPairs (λ a b. a.key ≢ b.key) cells
        → ((cell : Cell)
        → (Contains cells cell ↔ ((level : ℕ) × IsTreeCell params (unescaped bodies) level cell)))
        → IsPermutation cells (tree_cells params bodies) }
{}

/// The way down a tree: its root, where there are bodies. A cell without kids is one with few bodies or at
/// the deepest level. Among the kids of any other a bit is set exactly where the tree has the cell of that
/// octant, and an octant without its bit is empty.
pub fn law_tree_kids()
    ensures root { (params : Params) (all : List Body) → all ≢ []
        → (root : Cell) × (IsTreeCell params all 0 root × (root.key ≡ 1)) }
    ensures leaf { (params : Params) (all : List Body) (level : ℕ) (cell : Cell)
        → IsTreeCell params all level cell
        → ((cell.kids ≡ 0) ↔ ((cell.count ≤ params.leaf) ⊎ (level ≡ deepest_level))) }
    ensures kid { (params : Params) (all : List Body) (level : ℕ) (cell : Cell) (octant : ℕ)
        → IsTreeCell params all level cell → octant < 8
        → ((cell.kids / 2 ^ octant % 2 ≡ 1)
        ↔ ((kid : Cell) × (IsTreeCell params all (level + 1) kid × (kid.key ≡ 8 * cell.key + octant)))) }
    ensures empty { (params : Params) (all : List Body) (level : ℕ) (cell : Cell) (octant : ℕ)
        → IsTreeCell params all level cell → octant < 8 → cell.kids ≢ 0
        → cell.kids / 2 ^ octant % 2 ≢ 1 → in_cell (level + 1) (8 * cell.key + octant) all ≡ [] }
{}

/// A number that has a bit for each octant that isn't empty, and no other bit, is the kids of the cell.
pub fn law_kid_bits()
    ensures { (level n : ℕ) (bodies : List Body) → n < 256
        → ((octant : ℕ) → octant < 8
        → ((n / 2 ^ octant % 2 ≡ 1) ↔ (in_octant level bodies octant ≢ [])))
        → n ≡ kids_of level bodies }
{}

/// The bodies of a cell of the tree, in the file of all bodies: as many as it says, from its first on. Taken
/// as the file has them, they pull one by one as in any order, any sum over them is that over the cell's
/// bodies, and they have the cell's mass.
pub fn law_cell_bodies()
    ensures within { (params : Params) (bodies : List Body) (level : ℕ) (cell : Cell)
        → IsTreeCell params (unescaped bodies) level cell
        → cell.first + cell.count ≤ length (unescaped bodies) }
    ensures bodies { (params : Params) (bodies : List Body) (level : ℕ) (cell : Cell)
        → IsTreeCell params (unescaped bodies) level cell
        → take cell.count (drop cell.first (sorted_by by_key bodies))
        ≡ sorted_by by_key (in_cell level cell.key (unescaped bodies)) }
    ensures pulls { (params : Params) (bodies : List Body) (p : At) (level : ℕ) (cell : Cell)
        → IsTreeCell params (unescaped bodies) level cell
        → direct_sum params p (take cell.count (drop cell.first (sorted_by by_key bodies)))
        ≡ direct_sum params p (in_cell level cell.key (unescaped bodies)) }
    ensures sums { (f : Body → ℕ) (params : Params) (bodies : List Body) (level : ℕ) (cell : Cell)
        → IsTreeCell params (unescaped bodies) level cell
        → sum_by f (take cell.count (drop cell.first (sorted_by by_key bodies)))
        ≡ sum_by f (in_cell level cell.key (unescaped bodies)) }
    ensures mass { (params : Params) (bodies : List Body) (level : ℕ) (cell : Cell)
        → IsTreeCell params (unescaped bodies) level cell
        → total_mass (take cell.count (drop cell.first (sorted_by by_key bodies))) ≡ cell.mass }
{}

/// The cells of the tree of valid bodies are of the form.
pub fn law_tree_forms()
    ensures { (params : Params) (bodies : List Body) → All IsValidBody bodies → length bodies ≤ most_bodies
        → All IsCell (tree_cells params bodies) }
{}

/// A tree has a cell exactly where a body is in the box, and at most one on each of its 22 levels for each of
/// these bodies.
pub fn law_tree_counts()
    ensures none { (params : Params) (bodies : List Body) → unescaped bodies ≡ []
        → tree_cells params bodies ≡ [] }
    ensures some { (params : Params) (bodies : List Body) → unescaped bodies ≢ []
        → 1 ≤ length (tree_cells params bodies) }
    ensures most { (params : Params) (bodies : List Body)
        → length (tree_cells params bodies) ≤ 22 * length (unescaped bodies) }
{}

/// The tree of a list of bodies, and its files, are those of the same bodies in any other order.
pub fn law_same_tree()
    ensures cells { (params : Params) (a b : List Body) → IsPermutation a b
        → tree_cells params a ≡ tree_cells params b }
    ensures files { (tree : Tree) (files : ℕ → List ℕ) (params : Params) (a b : List Body)
        → IsPermutation a b → IsTreeOf tree files params a → IsTreeOf tree files params b }
{}

/// A kick leaves the tree of a list as it is: no cell tells of velocities.
pub fn law_kicked_tree()
    ensures { (params kicks : Params) (way : Way) (bodies : List Body)
        → tree_cells params (kick kicks way bodies) ≡ tree_cells params bodies }
{}

/// A table holds its cells in no order.
pub fn law_same_table()
    ensures { (file : List ℕ) (bits pages : ℕ) (a b : List Cell) → IsPermutation a b
        → IsCellTable file bits pages a → IsCellTable file bits pages b }
{}
