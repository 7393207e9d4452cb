//! The walks of a pool: what each has taken, and what they have left.

ghost use Rattle.std.specs.Prelude.{◌≡◌, ◌≢◌, ℕ, List, ◌<◌, ◌≤◌, [], ◌∷◌, ◌++◌, length, All, IfOk, OnOk, IsOk, Err, vec_capacity};
ghost use Rattle.nb_model.specs.Valid.{IsInBox};
ghost use Rattle.nb_model.specs.declared.body.Body.{Body as Bodies};
ghost use Rattle.nb_host.specs.declared.page_name.PageName.{PageName as Names};
ghost use Rattle.nb_record.specs.Tree.{IsTreeOf};
ghost use Rattle.nb_walk.specs.Group.{group_walks, IsGroup, AreTallies, AreAtRest, LooksWhereShown, KeepsRooms};
ghost use Rattle.nb_walk.specs.Joining.{JoinsRoot};
ghost use Rattle.nb_walk.specs.Pool.{BlamesOne};
ghost use Rattle.nb_walk.specs.Running.{KeepsWalk, HasRun, Each};
ghost use Rattle.nb_walk.specs.Shown.{IsWalkable, Shows};
ghost use Rattle.nb_walk.specs.Walk.{new_walk, IsWalkOn};

use crate::item::Item;
use crate::items::Items;
use crate::shared::{BLOCK, SharedItem, take_one, with};
use crate::tally::Tally;
use arrayvec::ArrayVec;
use nb_host::PageName;
use nb_model::{At, NoMemory, Params};
use nb_record::{Lender, Tree};
use std::alloc::Global;

/// What a walk takes by itself, and where it waits.
#[derive(Drop)]
pub(crate) struct Own {
    /// Its own items, the next one last.
    pub(crate) items: Items,
    /// The item at which it waits, as it was last asked.
    pub(crate) need: Option<Item>,
}

/// The walks of a pool: what each has taken, the items that they share, and those that one takes by itself.
/// A shared item is looked up once for all walks that have it left, in any order: where its page isn't shown,
/// it waits, and the walks go on with others.
#[derive(Drop)]
pub(crate) struct Group {
    pub(crate) tallies: Vec<Tally>,
    /// As many as tallies.
    pub(crate) owns: Vec<Own>,
    /// The shared items that are to be looked at, the next one last.
    pub(crate) items: Vec<SharedItem>,
    /// The shared items whose pages weren't shown.
    pub(crate) waits: Vec<SharedItem>,
    /// For how many shared items there is room.
    pub(crate) room: usize,
}

impl Group {
    /// No walks, with room for so many, and for so many shared items.
    pub(crate) fn new(alloc: Global, walks: usize, room: usize) -> Result<Group, NoMemory>
        ensures group { IfOk result IsGroup }
        ensures none { IfOk result (λ g. (g.tallies.items ≡ []) × (g.owns.items ≡ [])) }
        ensures tallies { IfOk result (λ g. walks ≤ vec_capacity g.tallies) }
        ensures owns { IfOk result (λ g. walks ≤ vec_capacity g.owns) }
    {
        Ok(Group {
            tallies: Vec::with_capacity(alloc, walks)?,
            owns: Vec::with_capacity(alloc, walks)?,
            items: Vec::with_capacity(alloc, room)?,
            waits: Vec::with_capacity(alloc, room)?,
            room,
        })
    }

    /// Drops all walks.
    pub(crate) fn clear(&mut self)
        requires group { IsGroup self.old }
        ensures group { IsGroup self.new }
        ensures none { (self.new.tallies.items ≡ []) × (self.new.owns.items ≡ []) }
        ensures tallies { vec_capacity self.old.tallies ≤ vec_capacity self.new.tallies }
        ensures owns { vec_capacity self.old.owns ≤ vec_capacity self.new.owns }
    {
        self.tallies.clear();
        self.owns.clear();
        self.items.clear();
        self.waits.clear();
    }

    /// A walk more, the last, for a target in the box.
    pub(crate) fn begin(&mut self, target: At)
        requires group { IsGroup self.old }
        requires target { IsInBox target }
        requires tallies { length self.old.tallies.items < vec_capacity self.old.tallies }
        requires owns { length self.old.owns.items < vec_capacity self.old.owns }
        ensures group { IsGroup self.new }
        ensures walks { group_walks self.new ≡ group_walks self.old ++ new_walk target ∷ [] }
        ensures tallies { vec_capacity self.old.tallies ≤ vec_capacity self.new.tallies }
        ensures owns { vec_capacity self.old.owns ≤ vec_capacity self.new.owns }
    {
        let walk = self.tallies.len();
        let mut items = ArrayVec::new();
        if !self.join_root(walk) {
            items.push(Item::default());
        }
        let _ = self.tallies.push(Tally::start(target));
        let _ = self.owns.push(Own { items, need: None });
    }

    /// Shares the root with a walk that is begun, where there is room for it: beside the walks before it, where
    /// the root is the last item of their block.
    fn join_root(&mut self, walk: usize) -> bool
        requires group { IsGroup self.old }
        requires walk { walk ≡ length self.old.tallies.items }
        ensures { JoinsRoot walk result self.old self.new }
    {
        let block = walk / BLOCK;
        let k = walk % BLOCK;
        let Some(last) = take_one(&mut self.items) else {
            return self.add_root(walk);
        };
        if last.item == Item::default() && last.block == block && last.walks >> k == 0 {
            let walks = with(last.walks, k);
            let _ = self.items.push(SharedItem { walks, ..last });
            return true;
        }
        let _ = self.items.push(last);
        self.add_root(walk)
    }

    /// Puts the root among the shared items for a walk that is begun, where there is room for it.
    fn add_root(&mut self, walk: usize) -> bool
        requires group { IsGroup self.old }
        requires walk { walk ≡ length self.old.tallies.items }
        ensures { JoinsRoot walk result self.old self.new }
    {
        if self.items.len() + self.waits.len() >= self.room {
            return false;
        }
        let _ = self.items.push(SharedItem {
            item: Item::default(),
            block: walk / BLOCK,
            walks: with(0, walk % BLOCK),
        });
        true
    }

    /// Has each walk look at its items, in any order, until each that isn't finished waits for a page that
    /// isn't shown.
    pub(crate) fn run<L: Lender>(
        &mut self,
        params: &Params,
        tree: &Tree,
        lender: &L,
    ) -> Result<(), PageName>
        requires tree { IsWalkable params.now tree.now }
        requires group { IsGroup self.old }
        requires tallies { AreTallies params.now self.old }
        ensures group { IsGroup self.new }
        ensures tallies { AreTallies params.now self.new }
        ensures rooms { KeepsRooms self.old self.new }
        ensures kept { Each (KeepsWalk params.now tree.now) (length self.old.tallies.items)
            (group_walks self.old) (group_walks self.new) }
        ensures ran { OnOk result (Each
            (HasRun (L.cells lender.now) (L.bodies lender.now) params.now tree.now 0)
            (length self.old.tallies.items) (group_walks self.old) (group_walks self.new)) }
        ensures goes_on { OnOk result (tree.now.count ≢ 0
            → LooksWhereShown (L.cells lender.now) (L.bodies lender.now) params.now tree.now self.old self.new) }
        ensures finished { tree.now.count ≡ 0 → OnOk result (All (λ w. w.items ≡ []) (group_walks self.new)) }
        ensures empty { OnOk result (self.new.items.items ≡ []) }
        ensures rests { OnOk result
            (AreAtRest (L.cells lender.now) (L.bodies lender.now) tree.now self.new) }
        ensures damaged { (name : Names) → result ≡ Err name
            → BlamesOne (L.cells lender.now) (L.bodies lender.now) tree.now (group_walks self.new) name }
        ensures sound { (files : ℕ → List ℕ) (bodies : List Bodies) → IsTreeOf tree.now files params.now bodies
            → Shows (L.cells lender.now) (L.bodies lender.now) tree.now files
            → All (λ w. IsWalkOn params.now bodies tree.now (files tree.now.cells) w) (group_walks self.old)
            → IsOk result }
    {
        if tree.count == 0 {
            self.finish();
            return Ok(());
        }
        self.turn();
        self.run_alone(params, tree, lender)?;
        self.pass(params, tree, lender)
    }
}
