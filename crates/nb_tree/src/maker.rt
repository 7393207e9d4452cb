//! The table of cells that a build makes.

ghost use Rattle.std.specs.Prelude.{◌≡◌, ◌<◌, nat_le, if◌then◌else◌, List, [], ◌∷◌, ◌++◌};
ghost use Rattle.std.specs.Prelude.{IsTrue, All, IfOk, OnOk, Err};
ghost use Rattle.nb_host.specs.declared.page_name.PageName.{PageName as PageNames};
ghost use Rattle.nb_cache.specs.InStep.{IsInStep};
ghost use Rattle.nb_cache.specs.View.{seen};
ghost use Rattle.nb_cache.specs.Writes.{RanCached};
ghost use Rattle.nb_record.specs.declared.cell.Cell.{Cell as Cells};
ghost use Rattle.nb_record.specs.Records.{IsCell};
ghost use Rattle.nb_tree.specs.Passes.{IsMaker, SameMaker, HoldsCells, MayStand, Inserts, IsClosed, cells_closed};

use crate::closed::ClosedCell;
use crate::tree_error::TreeError;
use nb_cache::Cache;
use nb_cell::CellTable;
use nb_host::{Host, PageName};
use nb_model::{DEEPEST_LEVEL, MOST_BODIES};
use nb_record::Cell;

/// A tree has at most so many cells: one on each level for each body.
const MOST_CELLS: u64 = (DEEPEST_LEVEL as u64 + 1) * MOST_BODIES;

/// The table of a tree's cells, as far as it is made.
#[derive(Clone, Copy, PartialEq, Eq, Debug)]
pub(crate) struct Maker {
    pub(crate) table: CellTable,
    /// How many cells were inserted.
    pub(crate) nodes: u64,
    /// A cell with at most so many bodies is a leaf.
    pub(crate) leaf: u64,
}

impl Maker {
    /// Inserts a cell. More cells than a tree has come only from a file of bodies that changes while it is
    /// read.
    pub(crate) fn put<H: Host>(
        &mut self,
        host: &mut H,
        cache: &mut Cache,
        cell: &Cell,
    ) -> Result<(), TreeError>
        requires maker { IsMaker self.old }
        requires cell { IsCell cell.now }
        requires in_step { IsInStep H.meaning cache.old host.old }
        ensures maker { IsMaker self.new }
        ensures same { SameMaker self.old self.new }
        ensures inserts { OnOk result (IsTrue H.meaning.tells → Inserts (cell.now ∷ [])
            (seen H.meaning cache.old host.old self.old.table.file) self.old
            (seen H.meaning cache.new host.new self.old.table.file) self.new) }
        ensures named { (name : PageNames) → result ≡ Err (TreeError.Damaged name)
            → name.file ≡ self.old.table.file }
        ensures never { (name : PageNames) → result ≡ Err (TreeError.Damaged name) → IsTrue H.meaning.tells
            → (cells : List Cells) → HoldsCells (seen H.meaning cache.old host.old self.old.table.file) self.old cells
            → MayStand (cells ++ cell.now ∷ []) → ⊥ }
        ensures ran { RanCached H.meaning TreeError.Fault (self.old.table.file ∷ []) cache.old host.old
            cache.new host.new result }
    {
        if self.nodes >= MOST_CELLS {
            return Err(TreeError::Damaged(PageName {
                file: self.table.file,
                page: 0,
            }));
        }
        self.table.insert(host, cache, cell)?;
        self.nodes += 1;
        Ok(())
    }

    /// Inserts closed cells.
    pub(crate) fn put_all<H: Host>(
        &mut self,
        host: &mut H,
        cache: &mut Cache,
        cells: &[ClosedCell],
    ) -> Result<(), TreeError>
        requires maker { IsMaker self.old }
        requires cells { All IsClosed cells.now }
        requires in_step { IsInStep H.meaning cache.old host.old }
        ensures maker { IsMaker self.new }
        ensures same { SameMaker self.old self.new }
        ensures inserts { OnOk result (IsTrue H.meaning.tells → Inserts (cells_closed cells.now)
            (seen H.meaning cache.old host.old self.old.table.file) self.old
            (seen H.meaning cache.new host.new self.old.table.file) self.new) }
        ensures named { (name : PageNames) → result ≡ Err (TreeError.Damaged name)
            → name.file ≡ self.old.table.file }
        ensures never { (name : PageNames) → result ≡ Err (TreeError.Damaged name) → IsTrue H.meaning.tells
            → (held : List Cells) → HoldsCells (seen H.meaning cache.old host.old self.old.table.file) self.old held
            → MayStand (held ++ cells_closed cells.now) → ⊥ }
        ensures ran { RanCached H.meaning TreeError.Fault (self.old.table.file ∷ []) cache.old host.old
            cache.new host.new result }
    {
        for closed in cells {
            self.put(host, cache, &closed.cell())?;
        }
        Ok(())
    }

    /// Inserts the closed octants of a cell that has so many bodies, unless it is a leaf. Answers the cell's
    /// kids: these, and none where it is a leaf.
    pub(crate) fn put_octants<H: Host>(
        &mut self,
        host: &mut H,
        cache: &mut Cache,
        octants: &[ClosedCell],
        count: u64,
        kids: u8,
    ) -> Result<u8, TreeError>
        requires maker { IsMaker self.old }
        requires octants { All IsClosed octants.now }
        requires in_step { IsInStep H.meaning cache.old host.old }
        ensures maker { IsMaker self.new }
        ensures same { SameMaker self.old self.new }
        ensures kids { IfOk result (λ k. k ≡ (if nat_le count self.old.leaf then 0 else kids)) }
        ensures inserts { OnOk result (IsTrue H.meaning.tells
            → Inserts (if nat_le count self.old.leaf then [] else cells_closed octants.now)
            (seen H.meaning cache.old host.old self.old.table.file) self.old
            (seen H.meaning cache.new host.new self.old.table.file) self.new) }
        ensures named { (name : PageNames) → result ≡ Err (TreeError.Damaged name)
            → name.file ≡ self.old.table.file }
        ensures divided { (name : PageNames) → result ≡ Err (TreeError.Damaged name) → self.old.leaf < count }
        ensures never { (name : PageNames) → result ≡ Err (TreeError.Damaged name) → IsTrue H.meaning.tells
            → (held : List Cells) → HoldsCells (seen H.meaning cache.old host.old self.old.table.file) self.old held
            → MayStand (held ++ cells_closed octants.now) → ⊥ }
        ensures ran { RanCached H.meaning TreeError.Fault (self.old.table.file ∷ []) cache.old host.old
            cache.new host.new result }
    {
        if count <= self.leaf {
            return Ok(0);
        }
        self.put_all(host, cache, octants)?;
        Ok(kids)
    }
}
