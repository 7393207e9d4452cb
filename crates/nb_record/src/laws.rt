//! Laws over pages, records, files and lists of bodies. Each is a function that does nothing: its contract is
//! the law, for all pages, cells, bodies and files.

ghost use Rattle.std.specs.Prelude.{◌≡◌, ◌≢◌, ◌↔◌, ℕ, ◌-◌, ◌/◌, ◌%◌, ◌^◌, ◌<◌, ◌≤◌, List, [], ◌∷◌, ◌++◌};
ghost use Rattle.std.specs.Prelude.{length, map, take, slice_get, All, Contains, IsPermutation};
ghost use Rattle.std.specs.List.Sorted.{IsStrictlyIncreasing};
ghost use Rattle.nb_model.specs.declared.body.V3.{V3};
ghost use Rattle.nb_model.specs.declared.body.Body.{Body};
ghost use Rattle.nb_model.specs.Bytes.{body_bytes};
ghost use Rattle.nb_model.specs.Limits.{kick_limit};
ghost use Rattle.nb_model.specs.Valid.{IsBelow, IsValidBody};
ghost use Rattle.nb_model.specs.Octree.{in_octant};
ghost use Rattle.nb_model.specs.Leapfrog.{unescaped};
ghost use Rattle.nb_record.specs.declared.cell.Cell.{Cell};
ghost use Rattle.nb_record.specs.Fields.{u64_at};
ghost use Rattle.nb_record.specs.Pages.{record_count, page_next};
ghost use Rattle.nb_record.specs.Pages.{read_cell_page, read_body_page, IsCellPage, IsBodyPage};
ghost use Rattle.nb_record.specs.Records.{body_record, record_bytes, body_of, kick_of, bodies_of};
ghost use Rattle.nb_record.specs.Records.{IsBodyRecord, FitsBodyRecord};
ghost use Rattle.nb_record.specs.Records.{cell_record, cell_bytes, cell_of, cells_of, FitsCellRecord};
ghost use Rattle.nb_record.specs.Looking.{index_of_key};
ghost use Rattle.nb_record.specs.Order.{by_key, by_id, sorted_by, HaveDifferentIds, IsSortedByRank};
ghost use Rattle.nb_host.specs.Page.{page_of};
ghost use Rattle.nb_record.specs.Order.{pages_for, count_on, HoldsBodies, HoldsKickedBodies};
ghost use Rattle.nb_record.specs.Writing.{IsZeroPadded, IsZeroPaddedFile, AreBytes};
ghost use Rattle.nb_record.specs.Cells.{kids_of};
ghost use Rattle.nb_record.specs.Table.{next_of, chain, cells_on_chain, IsCellTable};

use crate::sizes::{BODIES_PER_PAGE, BODY_SIZE, CELL_SIZE, CELLS_PER_PAGE, HEADER_SIZE, KICK_AT};
use nb_host::PAGE_SIZE;

/// A check answers the page exactly where its header is of the form.
pub fn law_checks()
    ensures cells { (page : ℕ) (bytes : List ℕ)
        → ((read_cell_page page bytes ≡ Ok bytes) ↔ IsCellPage page bytes) }
    ensures bodies { (page : ℕ) (bytes : List ℕ)
        → ((read_body_page page bytes ≡ Ok bytes) ↔ IsBodyPage page bytes) }
{}

/// The record of a cell says the cell.
pub fn law_cells()
    ensures value { (cell : Cell) → FitsCellRecord cell → cell_of (cell_bytes cell) ≡ cell }
    ensures size { (cell : Cell) → length (cell_bytes cell) ≡ CELL_SIZE }
{}

/// The bytes of a body say the body. The record of a body and a kick says exactly these, and is of the form
/// where the body is valid.
pub fn law_bodies()
    ensures bytes { (body : Body) → FitsBodyRecord body → body_of (body_bytes body) ≡ body }
    ensures length { (body : Body) → length (body_bytes body) ≡ KICK_AT }
    ensures body { (body : Body) (kick : V3) → FitsBodyRecord body
        → body_of (record_bytes body kick) ≡ body }
    ensures kick { (body : Body) (kick : V3) → IsBelow kick_limit kick
        → kick_of (record_bytes body kick) ≡ kick }
    ensures form { (body : Body) (kick : V3) → IsValidBody body → FitsBodyRecord body
        → IsBelow kick_limit kick → IsBodyRecord (record_bytes body kick) }
    ensures size { (body : Body) (kick : V3) → length (record_bytes body kick) ≡ BODY_SIZE }
{}

/// The sorted list has each body once. Where the ids differ, as ids that rise do, each body precedes the next
/// in it. A list of the same bodies in which each precedes the next is the sorted one. A list whose ids rise
/// is its own in the order of ids.
pub fn law_sorted_by()
    ensures permutation { (rank : Body → ℕ) (bodies : List Body)
        → IsPermutation bodies (sorted_by rank bodies) }
    ensures sorted { (rank : Body → ℕ) (bodies : List Body) → HaveDifferentIds bodies
        → IsSortedByRank rank (sorted_by rank bodies) }
    ensures only { (rank : Body → ℕ) (bodies list : List Body) → IsPermutation bodies list
        → IsSortedByRank rank list → list ≡ sorted_by rank bodies }
    ensures ids { (bodies : List Body) → IsStrictlyIncreasing (map (λ b. b.id) bodies)
        → HaveDifferentIds bodies }
    ensures by_id { (bodies : List Body) → IsStrictlyIncreasing (map (λ b. b.id) bodies)
        → sorted_by by_id bodies ≡ bodies }
{}

/// A page of cells says as many cells as it counts, each at its index. The index of a key is that of the
/// first cell with it, and there is none exactly where no cell has it.
pub fn law_page_cells()
    ensures count { (bytes : List ℕ) → length (cells_of bytes) ≡ record_count bytes }
    ensures cell { (bytes : List ℕ) (i : ℕ) → i < record_count bytes
        → slice_get (cells_of bytes) i ≡ Some (cell_of (cell_record i bytes)) }
    ensures found { (bytes : List ℕ) (key i : ℕ) → index_of_key key bytes ≡ Some i
        → (i < record_count bytes) × (u64_at 0 (cell_record i bytes) ≡ key) }
    ensures first { (bytes : List ℕ) (key i : ℕ) → index_of_key key bytes ≡ Some i
        → (j : ℕ) → j < i → u64_at 0 (cell_record j bytes) ≢ key }
    ensures lacks { (bytes : List ℕ) (key : ℕ)
        → ((index_of_key key bytes ≡ None) ↔ All (λ cell. cell.key ≢ key) (cells_of bytes)) }
{}

/// A page of bodies says as many bodies as it counts, each at its index.
pub fn law_page_bodies()
    ensures count { (bytes : List ℕ) → length (bodies_of bytes) ≡ record_count bytes }
    ensures body { (bytes : List ℕ) (i : ℕ) → i < record_count bytes
        → slice_get (bodies_of bytes) i ≡ Some (body_of (body_record i bytes)) }
{}

/// Where the bytes behind the last record are zeros, a file of bodies is a function of its bodies and their
/// kicks, and a page of cells of its number, its next page and its cells.
pub fn law_zero_padded()
    ensures bodies { (a b : List ℕ) (kick : Body → V3) (bodies : List Body) → AreBytes a → AreBytes b
        → IsZeroPaddedFile BODY_SIZE a → IsZeroPaddedFile BODY_SIZE b
        → HoldsKickedBodies a kick bodies → HoldsKickedBodies b kick bodies → a ≡ b }
    ensures cells { (page : ℕ) (a b : List ℕ) → AreBytes a → AreBytes b
        → length a ≡ PAGE_SIZE → length b ≡ PAGE_SIZE → IsCellPage page a → IsCellPage page b
        → IsZeroPadded CELL_SIZE a → IsZeroPadded CELL_SIZE b
        → page_next a ≡ page_next b → cells_of a ≡ cells_of b → a ≡ b }
{}

/// The bodies that a file holds are valid. A list in Morton order is its own sorted list, and its bodies in
/// the box are its front.
pub fn law_morton_order()
    ensures valid { (file : List ℕ) (bodies : List Body) → HoldsBodies file bodies
        → All IsValidBody bodies }
    ensures sorted { (rank : Body → ℕ) (bodies : List Body) → IsSortedByRank rank bodies
        → bodies ≡ sorted_by rank bodies }
    ensures front { (bodies : List Body) → IsSortedByRank by_key bodies
        → take (length (unescaped bodies)) bodies ≡ unescaped bodies }
{}

/// Body j of a file stands on one of the file's pages, at one of the page's records. A file holds one list.
pub fn law_body_files()
    ensures page { (count j : ℕ) → j < count → j / BODIES_PER_PAGE < pages_for count }
    ensures index { (count j : ℕ) → j < count
        → j % BODIES_PER_PAGE < count_on count (j / BODIES_PER_PAGE) }
    ensures one { (file : List ℕ) (a b : List Body) → HoldsBodies file a → HoldsBodies file b
        → a ≡ b }
{}

/// A chain of a table has rising pages of the file. It is a page, and the chain from its next page on where
/// it has one, and any bound of pages that reaches the end of the file gives the whole of it.
pub fn law_chains()
    ensures later { (file : List ℕ) (bits pages : ℕ) (cells : List Cell)
        → IsCellTable file bits pages cells → (p : ℕ) → p < pages → next_of file p ≢ 0
        → (p < next_of file p) × (next_of file p < pages) }
    ensures rising { (file : List ℕ) (bits pages : ℕ) (cells : List Cell)
        → IsCellTable file bits pages cells → (n p : ℕ) → p < pages
        → IsStrictlyIncreasing (chain file n p) }
    ensures within { (file : List ℕ) (bits pages : ℕ) (cells : List Cell)
        → IsCellTable file bits pages cells → (n p : ℕ) → p < pages
        → All (λ q. (p ≤ q) × (q < pages)) (chain file n p) }
    ensures whole { (file : List ℕ) (bits pages : ℕ) (cells : List Cell)
        → IsCellTable file bits pages cells → (n p : ℕ) → p < pages → pages - p ≤ n
        → chain file n p ≡ chain file pages p }
    ensures last { (file : List ℕ) (bits pages : ℕ) (cells : List Cell)
        → IsCellTable file bits pages cells → (p : ℕ) → p < pages → next_of file p ≡ 0
        → chain file pages p ≡ p ∷ [] }
    ensures more { (file : List ℕ) (bits pages : ℕ) (cells : List Cell)
        → IsCellTable file bits pages cells → (p : ℕ) → p < pages → next_of file p ≢ 0
        → chain file pages p ≡ p ∷ chain file pages (next_of file p) }
{}

/// The chain of a key begins at a page of the file, and its cells, page by page, are cells of the table, also
/// from a page in its middle on. Each cell of the table stands on the chain of its key, so where none of the
/// cells on the chain of a key has it, no cell of the table has it.
pub fn law_lookups()
    ensures start { (file : List ℕ) (bits pages : ℕ) (cells : List Cell)
        → IsCellTable file bits pages cells → (key : ℕ) → key % 2 ^ bits < pages }
    ensures last { (file : List ℕ) (bits pages : ℕ) (cells : List Cell)
        → IsCellTable file bits pages cells → (p : ℕ) → p < pages → next_of file p ≡ 0
        → cells_on_chain file pages p ≡ cells_of (page_of file p) }
    ensures more { (file : List ℕ) (bits pages : ℕ) (cells : List Cell)
        → IsCellTable file bits pages cells → (p : ℕ) → p < pages → next_of file p ≢ 0
        → cells_on_chain file pages p
        ≡ cells_of (page_of file p) ++ cells_on_chain file pages (next_of file p) }
    ensures held { (file : List ℕ) (bits pages : ℕ) (cells : List Cell)
        → IsCellTable file bits pages cells → (h : ℕ) → h < 2 ^ bits
        → All (λ cell. Contains cells cell) (cells_on_chain file pages h) }
    ensures gone { (file : List ℕ) (bits pages : ℕ) (cells : List Cell)
        → IsCellTable file bits pages cells → (key : ℕ)
        → All (λ cell. cell.key ≢ key) (cells_on_chain file pages (key % 2 ^ bits))
        → All (λ cell. cell.key ≢ key) cells }
    ensures stands { (file : List ℕ) (bits pages : ℕ) (cells : List Cell)
        → IsCellTable file bits pages cells → (cell : Cell) → Contains cells cell
        → Contains (cells_on_chain file pages (cell.key % 2 ^ bits)) cell }
    ensures held_from { (file : List ℕ) (bits pages : ℕ) (cells : List Cell)
        → IsCellTable file bits pages cells → (p : ℕ) → p < pages
        → All (λ cell. Contains cells cell) (cells_on_chain file pages p) }
    ensures held_on { (file : List ℕ) (bits pages : ℕ) (cells : List Cell)
        → IsCellTable file bits pages cells → (p : ℕ) → p < pages
        → All (λ cell. Contains cells cell) (cells_of (page_of file p)) }
{}

/// A cell's kids have a bit for each of the eight octants, which is set exactly where the octant isn't empty.
/// So a cell that is divided has a kid.
pub fn law_kids()
    ensures bit { (level octant : ℕ) (bodies : List Body) → octant < 8
        → ((kids_of level bodies / 2 ^ octant % 2 ≡ 1) ↔ (in_octant level bodies octant ≢ [])) }
    ensures range { (level : ℕ) (bodies : List Body) → kids_of level bodies < 256 }
    ensures some { (level : ℕ) (body : Body) (bodies : List Body) → kids_of level (body ∷ bodies) ≢ 0 }
{}

/// The sizes of a page's parts, in bytes, where a body's kick stands in its record, and the most records of a
/// page.
pub fn law_sizes()
    ensures header { HEADER_SIZE ≡ 32 }
    ensures records { (BODY_SIZE ≡ 88) × (CELL_SIZE ≡ 64) }
    ensures kick { KICK_AT ≡ 64 }
    ensures most { (BODIES_PER_PAGE ≡ 46) × (CELLS_PER_PAGE ≡ 63) }
{}
