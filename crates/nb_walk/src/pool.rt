//! Walks that wait for their pages together.

ghost use Rattle.std.specs.Prelude.{◌≡◌, ◌≢◌, ℕ, List, Option, ◌+◌, ◌<◌, ◌≤◌, ◌↔◌, true, false, IsTrue, None, Ok, Err, [], ◌∷◌, ◌++◌, length, map, slice_get, Some, Contains, vec_len, vec_capacity, All, OnOk, OnErr, IsOk, IfOk};
ghost use Rattle.nb_model.specs.Valid.{IsInBox};
ghost use Rattle.nb_host.specs.declared.page_name.PageName.{PageName as Names};
ghost use Rattle.nb_host.specs.Page.{IsRising};
ghost use Rattle.nb_model.specs.declared.body.Body.{Body as Bodies};
ghost use Rattle.nb_record.specs.Tree.{IsTreeOf};
ghost use Rattle.nb_walk.specs.Shown.{IsWalkable, Shows};
ghost use Rattle.nb_walk.specs.Walk.{new_walk};
ghost use Rattle.nb_walk.specs.Pool.{unasked, all_unasked, targets, sums, AreSumsInRange, AreWithin, AreFinished, IsSettled, SomeWaits, BlamesOne, IsWanted, pool_bound, CanGoOn, IsAdvanced, PoolOnTree};

use crate::group::Group;
use crate::shared::BLOCK;
use nb_host::PageName;
use nb_model::{At, NoMemory, Params, V3};
use nb_record::{Lender, Tree};
use std::alloc::Global;
use std::marker::Model;

/// For how many shared items there is room for each block of walks. Those of trees of 100,000 bodies were
/// seen to need 1,378; where there is none left, a walk takes an item by itself.
const BLOCK_ROOM: usize = 4096;

/// Walks over one tree, in the order in which they were begun, and the pages that they wait for. A page is
/// looked at once for all walks that need it, as Salmon and Warren (1997) have many walks share what was
/// fetched. Its memory is taken once.
#[derive(Drop)]
pub struct Pool {
    /// For how many walks there is room.
    room: usize,
    group: Group,
    /// The names of the needed pages, where `asked`.
    wants: Vec<PageName>,
    /// Whether an advance was the last call that changed the walks, and found no damage.
    asked: bool,
}

impl Model for Pool {
    ghost use Rattle.std.specs.Prelude.{◌≡◌, ◌≤◌, true, length, vec_capacity};
    ghost use Rattle.nb_walk.specs.Group.{pooled_walks, IsGroup, HaveNeeds};
    ghost use Rattle.nb_walk.specs.Pool.{PoolValue};

    ghost Value = { PoolValue };

    ghost view = { λ p. record {
      room = p.room;
      walks = pooled_walks p.asked p.group;
      wants = p.wants.items;
    } };

    ghost invariant = { λ p.
        IsGroup p.group × (length p.group.tallies.items ≤ p.room) × (p.room ≤ vec_capacity p.group.tallies)
        × (p.room ≤ vec_capacity p.group.owns) × (p.room ≤ vec_capacity p.wants)
        × (1 ≤ p.room) × (p.room ≤ 1024) × (p.asked ≡ true → HaveNeeds p.group) };
}

impl Pool {
    /// A pool without walks, with room for so many, 1 to 1024.
    pub fn new(alloc: Global, walks: usize) -> Result<Pool, NoMemory>
        requires some { 1 ≤ walks }
        requires few { walks ≤ 1024 }
        ensures { IfOk result (λ pool. pool ≡ record { room = walks; walks = []; wants = [] }) }
    {
        Pool::with_room(alloc, walks, BLOCK_ROOM * walks.div_ceil(BLOCK))
    }

    /// The same, with room for so many shared items, whatever it is.
    pub(crate) fn with_room(alloc: Global, walks: usize, room: usize) -> Result<Pool, NoMemory>
        requires some { 1 ≤ walks }
        requires few { walks ≤ 1024 }
        ensures { IfOk result (λ pool. pool ≡ record { room = walks; walks = []; wants = [] }) }
    {
        Ok(Pool {
            room: walks,
            group: Group::new(alloc, walks, room)?,
            wants: Vec::with_capacity(alloc, walks)?,
            asked: false,
        })
    }

    /// For how many walks the pool has room, 1 to 1024.
    pub fn walks(&self) -> usize
        ensures room { result ≡ self.now.room }
        ensures least { 1 ≤ result }
        ensures most { result ≤ 1024 }
    {
        self.room
    }

    /// How many walks were begun since the last `clear`.
    pub fn len(&self) -> usize
        ensures length { result ≡ length self.now.walks }
        ensures room { result ≤ self.now.room }
    {
        self.group.tallies.len()
    }

    /// Drops all walks.
    pub fn clear(&mut self)
        ensures { self.new ≡ record { room = self.old.room; walks = []; wants = [] } }
    {
        self.group.clear();
        self.wants.clear();
        self.asked = false;
    }

    /// Begins a walk for a target in the box, in box units. It is the last in the pool's order.
    pub fn begin(&mut self, target: At)
        requires target { IsInBox target }
        requires room { length self.old.walks < self.old.room }
        ensures { self.new ≡ record {
          room = self.old.room;
          walks = all_unasked self.old.walks ++ unasked (new_walk target) ∷ [];
          wants = [];
        } }
    {
        self.group.begin(target);
        self.wants.clear();
        self.asked = false;
    }

    /// Has each walk go on until it waits or is finished, and answers whether all are finished. A walk takes
    /// its items in any order. Err comes with the name of a page that is shown and isn't the tree's.
    pub fn advance<L: Lender>(
        &mut self,
        params: &Params,
        tree: &Tree,
        lender: &L,
    ) -> Result<bool, PageName>
        requires tree { IsWalkable params.now tree.now }
        requires range { AreSumsInRange params.now self.old.walks }
        ensures room { self.new.room ≡ self.old.room }
        ensures targets { targets self.new.walks ≡ targets self.old.walks }
        ensures range { AreSumsInRange params.now self.new.walks }
        ensures within { AreWithin tree.now.mass self.old.walks → AreWithin tree.now.mass self.new.walks }
        ensures settled { OnOk result
            (All (IsSettled (L.cells lender.now) (L.bodies lender.now) tree.now) self.new.walks) }
        ensures answer { IfOk result (λ done. IsTrue done ↔ AreFinished self.new.walks) }
        ensures waits { result ≡ Ok false → SomeWaits self.new.walks }
        ensures wants { OnOk result (IsWanted tree.now self.new.walks self.new.wants) }
        ensures damaged { (name : Names) → result ≡ Err name
            → BlamesOne (L.cells lender.now) (L.bodies lender.now) tree.now
            (map (λ w. w.walk) self.new.walks) name }
        ensures unasked { OnErr result (self.new.walks ≡ all_unasked self.new.walks) }
        ensures none { OnErr result (self.new.wants ≡ []) }
        ensures bound { pool_bound tree.now self.new.walks ≤ pool_bound tree.now self.old.walks }
        ensures lower { CanGoOn (L.cells lender.now) (L.bodies lender.now) tree.now self.old.walks
            → OnOk result (pool_bound tree.now self.new.walks < pool_bound tree.now self.old.walks) }
        ensures sound { PoolOnTree params.now tree.now (L.cells lender.now) (L.bodies lender.now)
            self.old.walks (λ bodies file. IsOk result) }
        ensures tree { PoolOnTree params.now tree.now (L.cells lender.now) (L.bodies lender.now)
            self.old.walks (λ bodies file. IsAdvanced (L.cells lender.now) (L.bodies lender.now)
            params.now bodies tree.now file self.old.walks self.new.walks) }
    {
        self.wants.clear();
        self.asked = false;
        self.group.run(params, tree, lender)?;
        self.group.ask();
        self.group.gather(tree, &mut self.wants);
        sort_names(&mut self.wants);
        self.asked = true;
        Ok(self.wants.is_empty())
    }

    /// The names of the pages that the walks wait for, as the last `advance` found them: rising, each once.
    /// There are none where it answered Err, and after a `begin` or a `clear`.
    pub fn wants(&self) -> &[PageName]
        ensures { result.now ≡ self.now.wants }
    {
        &self.wants
    }

    /// The sum of walk i, from 0, in the order in which they were begun since the last `clear`.
    pub fn sum(&self, i: usize) -> V3
        requires { i < length self.now.walks }
        ensures { slice_get (sums self.now.walks) i ≡ Some result }
    {
        self.group.tallies[i].sum
    }
}

/// Puts names into their order, each once.
fn sort_names(names: &mut Vec<PageName>)
    ensures rising { IsRising names.new.items }
    ensures same { (name : Names) → Contains names.new.items name ↔ Contains names.old.items name }
    ensures capacity { vec_capacity names.new ≡ vec_capacity names.old }
{
    names.sort_unstable();
    names.dedup();
}
