//! The pass through a cell.

ghost use Rattle.std.specs.Prelude.{◌≡◌, ◌≢◌, ◌⊎◌, ◌-◌, ◌<◌, ◌≤◌, IsTrue, List, [], ◌∷◌, ◌++◌, All, IfOk, OnOk, Err};
ghost use Rattle.nb_host.specs.declared.page_name.PageName.{PageName as PageNames};
ghost use Rattle.nb_model.specs.declared.body.Body.{Body as Bodies};
ghost use Rattle.nb_model.specs.declared.params.Params.{Params};
ghost use Rattle.nb_key.specs.Morton.{IsKeyAt};
ghost use Rattle.nb_cache.specs.InStep.{IsInStep};
ghost use Rattle.nb_cache.specs.View.{seen};
ghost use Rattle.nb_cache.specs.Writes.{RanCached};
ghost use Rattle.nb_record.specs.declared.cell.Cell.{Cell as Cells};
ghost use Rattle.nb_record.specs.Cells.{first_body, in_cell};
ghost use Rattle.nb_tree.specs.Fronts.{IsFront};
ghost use Rattle.nb_tree.specs.Refusals.{IsMisplaced};
ghost use Rattle.nb_tree.specs.Passes.{IsReader, IsMaker, SameMaker, IsSmall, IsClosed, LiesIn, Reads};
ghost use Rattle.nb_tree.specs.Passes.{IsAt, IsHeld, AreSums, HoldsCells, MayStand, HasPassed, put_below};

use crate::closed::ClosedCell;
use crate::maker::Maker;
use crate::reader::Reader;
use crate::sums::Sums;
use crate::tree_error::TreeError;
use nb_cache::Cache;
use nb_host::Host;
use nb_key::Key;
use smallvec::SmallVec;

/// The closed octants of the cells that are begun: they wait until their cell is closed. Eight have room
/// without an allocation, as many as one cell has octants.
pub(crate) type Waiting = SmallVec<ClosedCell, 8>;

/// Goes through the bodies of a cell, which has so many levels below it, and inserts the cells below it that
/// the tree has. The cell itself is closed and handed out: whether the tree has it, its parent's count tells.
/// One call is one begun cell, so at most 22 are begun at a time. The body ahead lies in the cell.
pub(crate) fn pass<H: Host>(
    host: &mut H,
    cache: &mut Cache,
    reader: &mut Reader,
    maker: &mut Maker,
    waiting: &mut Waiting,
    key: Key,
    depth: u32,
) -> Result<ClosedCell, TreeError>
    requires reader { IsReader reader.old }
    requires maker { IsMaker maker.old }
    requires apart { reader.old.file ≢ maker.old.table.file }
    requires waiting { All IsClosed waiting.old.items }
    requires depth { depth ≤ 21 }
    requires key { IsKeyAt (21 - depth) key }
    requires lies { LiesIn (21 - depth) key reader.old }
    requires in_step { IsInStep H.meaning cache.old host.old }
    ensures reader { OnOk result (IsReader reader.new) }
    ensures maker { IsMaker maker.new }
    ensures same { SameMaker maker.old maker.new }
    ensures waiting { OnOk result (waiting.new.items ≡ waiting.old.items) }
    ensures closed { IfOk result IsClosed }
    ensures reads { IfOk result (λ closed. Reads reader.old reader.new closed.sums.count) }
    ensures behind { OnOk result (LiesIn (21 - depth) key reader.new → ⊥) }
    ensures at { OnOk result (IsTrue H.meaning.tells → (front : List Bodies)
        → IsFront (seen H.meaning cache.old host.old reader.old.file) reader.old.count front
        → IsAt front reader.old → IsAt front reader.new) }
    ensures passed { IfOk result (λ closed. IsTrue H.meaning.tells → (params : Params) (front : List Bodies)
        → params.leaf ≡ maker.old.leaf
        → IsFront (seen H.meaning cache.old host.old reader.old.file) reader.old.count front
        → IsAt front reader.old → first_body front (in_cell (21 - depth) key front) ≡ reader.old.taken
        → HasPassed params front depth key
        (seen H.meaning cache.old host.old maker.old.table.file) maker.old
        (seen H.meaning cache.new host.new maker.old.table.file) maker.new closed) }
    ensures named { (name : PageNames) → result ≡ Err (TreeError.Damaged name)
        → (name.file ≡ reader.old.file) ⊎ (name.file ≡ maker.old.table.file) }
    ensures held { OnOk result (IsTrue H.meaning.tells
        → IsHeld (seen H.meaning cache.old host.old reader.old.file) reader.old
        → IsHeld (seen H.meaning cache.old host.old reader.old.file) reader.new) }
    ensures damaged { (name : PageNames) → result ≡ Err (TreeError.Damaged name) → IsTrue H.meaning.tells
        → IsHeld (seen H.meaning cache.old host.old reader.old.file) reader.old
        → IsMisplaced reader.old.file reader.old.count (seen H.meaning cache.old host.old reader.old.file) name
        ⊎ ((params : Params) (front : List Bodies) (cells : List Cells)
        → params.leaf ≡ maker.old.leaf
        → IsFront (seen H.meaning cache.old host.old reader.old.file) reader.old.count front
        → IsAt front reader.old → first_body front (in_cell (21 - depth) key front) ≡ reader.old.taken
        → HoldsCells (seen H.meaning cache.old host.old maker.old.table.file) maker.old cells
        → MayStand (cells ++ put_below params front depth key) → ⊥) }
    ensures ran { RanCached H.meaning TreeError.Fault (maker.old.table.file ∷ []) cache.old host.old
        cache.new host.new result }
{
    let first = reader.taken;
    if depth == 0 {
        let sums = add_bodies(host, cache, reader, key)?;
        return Ok(ClosedCell {
            key,
            sums,
            first,
            kids: 0,
        });
    }
    let from = waiting.len();
    let mut sums = Sums::none();
    let mut kids = 0;
    while let Some(octant) = reader.octant_in(key, depth - 1) {
        let child = key.child(octant);
        let kid = pass(host, cache, reader, maker, waiting, child, depth - 1)?;
        waiting.push(kid)?;
        sums = sums.plus(&kid.sums);
        kids |= 1 << octant;
    }
    let octants = &waiting.as_slice()[from..];
    let kids = maker.put_octants(host, cache, octants, sums.count, kids)?;
    waiting.truncate(from);
    Ok(ClosedCell {
        key,
        sums,
        first,
        kids,
    })
}

/// Takes the bodies of a cell at the deepest level, and adds up their sums.
fn add_bodies<H: Host>(
    host: &mut H,
    cache: &mut Cache,
    reader: &mut Reader,
    key: Key,
) -> Result<Sums, TreeError>
    requires reader { IsReader reader.old }
    requires lies { LiesIn 21 key reader.old }
    requires in_step { IsInStep H.meaning cache.old host.old }
    ensures reader { OnOk result (IsReader reader.new) }
    ensures small { IfOk result IsSmall }
    ensures some { IfOk result (λ sums. 0 < sums.count) }
    ensures reads { IfOk result (λ sums. Reads reader.old reader.new sums.count) }
    ensures behind { OnOk result (LiesIn 21 key reader.new → ⊥) }
    ensures at { OnOk result (IsTrue H.meaning.tells → (front : List Bodies)
        → IsFront (seen H.meaning cache.old host.old reader.old.file) reader.old.count front
        → IsAt front reader.old → IsAt front reader.new) }
    ensures sums { IfOk result (λ sums. IsTrue H.meaning.tells → (front : List Bodies)
        → IsFront (seen H.meaning cache.old host.old reader.old.file) reader.old.count front
        → IsAt front reader.old → first_body front (in_cell 21 key front) ≡ reader.old.taken
        → AreSums sums (in_cell 21 key front)) }
    ensures named { (name : PageNames) → result ≡ Err (TreeError.Damaged name)
        → name.file ≡ reader.old.file }
    ensures held { OnOk result (IsTrue H.meaning.tells
        → IsHeld (seen H.meaning cache.old host.old reader.old.file) reader.old
        → IsHeld (seen H.meaning cache.old host.old reader.old.file) reader.new) }
    ensures damaged { (name : PageNames) → result ≡ Err (TreeError.Damaged name) → IsTrue H.meaning.tells
        → IsHeld (seen H.meaning cache.old host.old reader.old.file) reader.old
        → IsMisplaced reader.old.file reader.old.count (seen H.meaning cache.old host.old reader.old.file) name }
    ensures ran { RanCached H.meaning TreeError.Fault [] cache.old host.old cache.new host.new result }
{
    let mut sums = Sums::none();
    while reader.lies_in(key) {
        let body = reader.take(host, cache)?;
        sums = sums.plus(&Sums::of(&body));
    }
    Ok(sums)
}
