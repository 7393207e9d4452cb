//! Building a tree.

ghost use Rattle.std.specs.Prelude.{◌≡◌, ◌≢◌, ◌⊎◌, ◌≤◌, IsTrue, List, [], ◌∷◌, ◌++◌, IfOk, Err};
ghost use Rattle.nb_host.specs.declared.page_name.PageName.{PageName as PageNames};
ghost use Rattle.nb_model.specs.declared.body.Body.{Body as Bodies};
ghost use Rattle.nb_model.specs.declared.params.Params.{Params as Parameters};
ghost use Rattle.nb_model.specs.Limits.{most_bodies};
ghost use Rattle.nb_model.specs.Valid.{AreInRange};
ghost use Rattle.nb_cache.specs.InStep.{IsCachedFile, IsInStep};
ghost use Rattle.nb_cache.specs.View.{seen};
ghost use Rattle.nb_cache.specs.Writes.{RanCached};
ghost use Rattle.nb_record.specs.declared.cell.Cell.{Cell as Cells};
ghost use Rattle.nb_record.specs.Tree.{IsBitsFor};
ghost use Rattle.nb_tree.specs.Fronts.{IsFront};
ghost use Rattle.nb_tree.specs.Refusals.{IsMisplaced, IsNoTree};
ghost use Rattle.nb_tree.specs.Builds.{IsTreeInRange, Builds};
ghost use Rattle.nb_tree.specs.Passes.{IsReader, IsMaker, SameMaker, IsSmall, IsAt, IsHeld, AreSums};
ghost use Rattle.nb_tree.specs.Passes.{HoldsCells, MayStand, Inserts, put_below, kid};

use crate::maker::Maker;
use crate::pass::{Waiting, pass};
use crate::reader::Reader;
use crate::sums::Sums;
use crate::tree_error::TreeError;
use nb_cache::Cache;
use nb_cell::CellTable;
use nb_host::Host;
use nb_key::Key;
use nb_model::{DEEPEST_LEVEL, GM_LIMIT, Params};
use nb_order::page_name;
use nb_record::Tree;
use smallvec::SmallVec;
use std::alloc::Global;

/// For how many bodies the table has a chain.
const BODIES_PER_CHAIN: u64 = 64;

/// Where closed cells wait until their parent's count is known, and where memory for them comes from. It
/// hands that to nobody, and a build depends on nothing that an earlier one left here.
#[derive(Drop)]
pub struct Builder {
    waiting: Waiting,
}

impl Builder {
    /// Takes no memory.
    pub fn new(alloc: Global) -> Builder {
        Builder {
            waiting: SmallVec::new(alloc),
        }
    }
}

/// Builds the tree of the bodies of a file, of which there are `count` in Morton order, in a file of cells
/// that is made anew. It takes each unescaped body once, in order. The tree has the root, where there is a
/// unescaped body, and the octants that aren't empty of each cell that has more than `leaf` bodies and isn't
/// at the deepest level. After a refusal the file of cells may hold anything.
pub fn build<H: Host>(
    host: &mut H,
    cache: &mut Cache,
    builder: &mut Builder,
    params: &Params,
    bodies: u64,
    cells: u64,
    count: u64,
) -> Result<Tree, TreeError>
    requires params { AreInRange params.now }
    requires bodies { IsCachedFile bodies }
    requires cells { IsCachedFile cells }
    requires apart { bodies ≢ cells }
    requires count { count ≤ most_bodies }
    requires in_step { IsInStep H.meaning cache.old host.old }
    ensures tree { IfOk result (λ tree. IsTrue H.meaning.tells
        → Builds params.now bodies count (seen H.meaning cache.old host.old) (seen H.meaning cache.new host.new) tree) }
    ensures range { IfOk result (IsTreeInRange params.now bodies cells count) }
    ensures damaged { (name : PageNames) → result ≡ Err (TreeError.Damaged name)
        → IsNoTree H.meaning params.now cache.old host.old bodies cells count name }
    ensures ran { RanCached H.meaning TreeError.Fault (cells ∷ []) cache.old host.old
        cache.new host.new result }
{
    let table = CellTable::make(host, cache, cells, bits_for(count))?;
    let mut reader = Reader::begin(host, cache, bodies, count)?;
    let mut maker = Maker {
        table,
        nodes: 0,
        leaf: params.leaf,
    };
    let sums = root(host, cache, builder, &mut reader, &mut maker)?;
    if u128::from(params.grav) * u128::from(sums.mass) >= u128::from(GM_LIMIT) {
        return Err(TreeError::Damaged(page_name(bodies, 0)));
    }
    Ok(Tree {
        bodies,
        cells,
        bits: maker.table.bits,
        pages: maker.table.pages,
        count: sums.count,
        mass: sums.mass,
        nodes: maker.nodes,
    })
}

/// Goes through all unescaped bodies, and inserts the cells of their tree.
fn root<H: Host>(
    host: &mut H,
    cache: &mut Cache,
    builder: &mut Builder,
    reader: &mut Reader,
    maker: &mut Maker,
) -> Result<Sums, TreeError>
    requires reader { IsReader reader.old }
    requires maker { IsMaker maker.old }
    requires apart { reader.old.file ≢ maker.old.table.file }
    requires begins { reader.old.taken ≡ 0 }
    requires in_step { IsInStep H.meaning cache.old host.old }
    ensures maker { IsMaker maker.new }
    ensures same { SameMaker maker.old maker.new }
    ensures small { IfOk result IsSmall }
    ensures most { IfOk result (λ sums. sums.count ≤ reader.old.count) }
    ensures passed { IfOk result (λ sums. IsTrue H.meaning.tells → (params : Parameters) (front : List Bodies)
        → params.leaf ≡ maker.old.leaf
        → IsFront (seen H.meaning cache.old host.old reader.old.file) reader.old.count front
        → IsAt front reader.old
        → AreSums sums front
        × Inserts (put_below params front 21 1 ++ kid params front 0 1)
        (seen H.meaning cache.old host.old maker.old.table.file) maker.old
        (seen H.meaning cache.new host.new maker.old.table.file) maker.new) }
    ensures named { (name : PageNames) → result ≡ Err (TreeError.Damaged name)
        → (name.file ≡ reader.old.file) ⊎ (name.file ≡ maker.old.table.file) }
    ensures damaged { (name : PageNames) → result ≡ Err (TreeError.Damaged name) → IsTrue H.meaning.tells
        → IsHeld (seen H.meaning cache.old host.old reader.old.file) reader.old
        → IsMisplaced reader.old.file reader.old.count (seen H.meaning cache.old host.old reader.old.file) name
        ⊎ ((params : Parameters) (front : List Bodies) (held : List Cells)
        → params.leaf ≡ maker.old.leaf
        → IsFront (seen H.meaning cache.old host.old reader.old.file) reader.old.count front
        → IsAt front reader.old
        → HoldsCells (seen H.meaning cache.old host.old maker.old.table.file) maker.old held
        → MayStand (held ++ (put_below params front 21 1 ++ kid params front 0 1)) → ⊥) }
    ensures ran { RanCached H.meaning TreeError.Fault (maker.old.table.file ∷ []) cache.old host.old
        cache.new host.new result }
{
    if reader.ahead.is_none() {
        return Ok(Sums::none());
    }
    let waiting = &mut builder.waiting;
    waiting.clear();
    let closed = pass(
        host,
        cache,
        reader,
        maker,
        waiting,
        Key::root(),
        DEEPEST_LEVEL,
    )?;
    maker.put(host, cache, &closed.cell())?;
    Ok(closed.sums)
}

/// The least number of bits with a chain for each 64 of so many bodies.
fn bits_for(count: u64) -> u32
    requires { count ≤ most_bodies }
    ensures bits { IsBitsFor result count }
    ensures most { result ≤ 18 }
{
    let mut bits = 0;
    while BODIES_PER_CHAIN << bits < count {
        bits += 1;
    }
    bits
}
