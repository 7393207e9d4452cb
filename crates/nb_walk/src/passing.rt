//! A pass over the items that walks share.

ghost use Rattle.std.specs.Prelude.{◌≡◌, ◌≢◌, ℕ, List, Option, ◌+◌, ◌<◌, ◌≤◌, [], ◌∷◌, ◌++◌, length, All, None, OnOk, IsOk, Err, IsPermutation, vec_capacity};
ghost use Rattle.nb_model.specs.declared.body.Body.{Body as Bodies};
ghost use Rattle.nb_host.specs.declared.page_name.PageName.{PageName as Names};
ghost use Rattle.nb_record.specs.Records.{IsCell};
ghost use Rattle.nb_record.specs.Tree.{IsTreeOf};
ghost use Rattle.nb_walk.specs.declared.item.Item.TheVariants as item;
ghost use Rattle.nb_walk.specs.Group.{group_walks, walks_with, all_shared, IsGroup, AreTallies, AreAtRest, LooksAtShared, TakesShared, KeepsRooms};
ghost use Rattle.nb_walk.specs.Looks.{opened_items};
ghost use Rattle.nb_walk.specs.Pool.{BlamesOne};
ghost use Rattle.nb_walk.specs.Room.{IsItemInRange};
ghost use Rattle.nb_walk.specs.Running.{KeepsWalk, HasRun, Each};
ghost use Rattle.nb_walk.specs.Shared.{items_of, shared_by, IsShared};
ghost use Rattle.nb_walk.specs.Shown.{IsWalkable, Shows};
ghost use Rattle.nb_walk.specs.Walk.{IsWalkOn};

use crate::group::Group;
use crate::item::Item;
use crate::meeting::{meet_bodies, meet_cell};
use crate::shared::{SharedItem, take_one};
use crate::sight::{Sight, look_at, page_at};
use nb_host::PageName;
use nb_key::Key;
use nb_model::Params;
use nb_record::{BODIES_PER_PAGE, CellView, Lender, Tree};

/// The most items that a look puts in an item's place: the octants of a cell.
const MOST_MORE: usize = 8;

impl Group {
    /// Drops all items: over a tree without unescaped bodies nothing is left.
    pub(crate) fn finish(&mut self)
        requires group { IsGroup self.old }
        ensures group { IsGroup self.new }
        ensures tallies { self.new.tallies ≡ self.old.tallies }
        ensures rooms { KeepsRooms self.old self.new }
        ensures empty { all_shared self.new ≡ [] }
        ensures finished { All (λ w. w.items ≡ []) (group_walks self.new) }
    {
        self.items.clear();
        self.waits.clear();
        for own in self.owns.iter_mut() {
            own.items.clear();
        }
    }

    /// Has the items that waited be looked at again, the first of them first.
    pub(crate) fn turn(&mut self)
        requires group { IsGroup self.old }
        ensures group { IsGroup self.new }
        ensures tallies { self.new.tallies ≡ self.old.tallies }
        ensures owns { self.new.owns ≡ self.old.owns }
        ensures rooms { KeepsRooms self.old self.new }
        ensures none { self.new.waits.items ≡ [] }
        ensures same { (i : ℕ) → IsPermutation (items_of i (all_shared self.old)) (items_of i self.new.items.items) }
    {
        self.waits.reverse();
        let _ = self.items.append(&mut self.waits);
    }

    /// Looks at shared items until none is left but those that wait.
    pub(crate) fn pass<L: Lender>(
        &mut self,
        params: &Params,
        tree: &Tree,
        lender: &L,
    ) -> Result<(), PageName>
        requires tree { IsWalkable params.now tree.now }
        requires some { tree.now.count ≢ 0 }
        requires group { IsGroup self.old }
        requires tallies { AreTallies params.now self.old }
        requires rests { AreAtRest (L.cells lender.now) (L.bodies lender.now) tree.now self.old }
        ensures group { IsGroup self.new }
        ensures tallies { AreTallies params.now self.new }
        ensures rooms { KeepsRooms self.old self.new }
        ensures kept { Each (KeepsWalk params.now tree.now) (length self.old.tallies.items)
            (group_walks self.old) (group_walks self.new) }
        ensures ran { OnOk result (Each
            (HasRun (L.cells lender.now) (L.bodies lender.now) params.now tree.now 0)
            (length self.old.tallies.items) (group_walks self.old) (group_walks self.new)) }
        ensures goes_on { OnOk result
            (LooksAtShared (L.cells lender.now) (L.bodies lender.now) params.now tree.now self.old self.new) }
        ensures empty { OnOk result (self.new.items.items ≡ []) }
        ensures rests { OnOk result
            (AreAtRest (L.cells lender.now) (L.bodies lender.now) tree.now self.new) }
        ensures damaged { (name : Names) → result ≡ Err name
            → BlamesOne (L.cells lender.now) (L.bodies lender.now) tree.now (group_walks self.new) name }
        ensures sound { (files : ℕ → List ℕ) (bodies : List Bodies) → IsTreeOf tree.now files params.now bodies
            → Shows (L.cells lender.now) (L.bodies lender.now) tree.now files
            → All (λ w. IsWalkOn params.now bodies tree.now (files tree.now.cells) w) (group_walks self.old)
            → IsOk result }
    {
        loop {
            let Some(entry) = take_one(&mut self.items) else {
                return Ok(());
            };
            self.take(entry, params, tree, lender)?;
        }
    }

    /// Looks at a shared item, which was taken from those that are to be looked at.
    fn take<L: Lender>(
        &mut self,
        entry: SharedItem,
        params: &Params,
        tree: &Tree,
        lender: &L,
    ) -> Result<(), PageName>
        requires tree { IsWalkable params.now tree.now }
        requires some { tree.now.count ≢ 0 }
        requires group { IsGroup self.old }
        requires tallies { AreTallies params.now self.old }
        requires shared { IsShared (length self.old.tallies.items) entry }
        requires small { IsItemInRange entry.item }
        requires room { length (all_shared self.old) < self.old.room }
        ensures group { IsGroup self.new }
        ensures tallies { AreTallies params.now self.new }
        ensures rooms { KeepsRooms self.old self.new }
        ensures kept { Each (KeepsWalk params.now tree.now) (length self.old.tallies.items)
            (walks_with self.old entry) (group_walks self.new) }
        ensures took { OnOk result (TakesShared (L.cells lender.now) (L.bodies lender.now)
            params.now tree.now self.old entry self.new) }
        ensures damaged { (name : Names) → result ≡ Err name
            → BlamesOne (L.cells lender.now) (L.bodies lender.now) tree.now (group_walks self.new) name }
        ensures sound { (files : ℕ → List ℕ) (bodies : List Bodies) → IsTreeOf tree.now files params.now bodies
            → Shows (L.cells lender.now) (L.bodies lender.now) tree.now files
            → All (λ w. IsWalkOn params.now bodies tree.now (files tree.now.cells) w)
            (walks_with self.old entry) → IsOk result }
    {
        if self.items.len() + self.waits.len() + MOST_MORE > self.room {
            return self.take_alone(entry, params, tree, lender);
        }
        let item = entry.item;
        match item {
            Item::Cell(key, page) => self.take_cell(entry, key, page, params, tree, lender),
            Item::Bodies(from, count) => {
                self.take_bodies(entry, from, count, params, tree, lender)
            }
        }
    }

    /// Looks at a cell that walks share.
    fn take_cell<L: Lender>(
        &mut self,
        entry: SharedItem,
        key: Key,
        page: u64,
        params: &Params,
        tree: &Tree,
        lender: &L,
    ) -> Result<(), PageName>
        requires item { entry.item ≡ item.Cell key page }
        requires tree { IsWalkable params.now tree.now }
        requires some { tree.now.count ≢ 0 }
        requires group { IsGroup self.old }
        requires tallies { AreTallies params.now self.old }
        requires shared { IsShared (length self.old.tallies.items) entry }
        requires small { IsItemInRange entry.item }
        requires room { length (all_shared self.old) + 8 ≤ self.old.room }
        ensures group { IsGroup self.new }
        ensures tallies { AreTallies params.now self.new }
        ensures rooms { KeepsRooms self.old self.new }
        ensures kept { Each (KeepsWalk params.now tree.now) (length self.old.tallies.items)
            (walks_with self.old entry) (group_walks self.new) }
        ensures took { OnOk result (TakesShared (L.cells lender.now) (L.bodies lender.now)
            params.now tree.now self.old entry self.new) }
        ensures damaged { (name : Names) → result ≡ Err name
            → BlamesOne (L.cells lender.now) (L.bodies lender.now) tree.now (group_walks self.new) name }
        ensures sound { (files : ℕ → List ℕ) (bodies : List Bodies) → IsTreeOf tree.now files params.now bodies
            → Shows (L.cells lender.now) (L.bodies lender.now) tree.now files
            → All (λ w. IsWalkOn params.now bodies tree.now (files tree.now.cells) w)
            (walks_with self.old entry) → IsOk result }
    {
        match look_at(tree, lender, key, page) {
            Sight::Cell(cell) => {
                let Some(opened) = meet_cell(&mut self.tallies, &entry, params, tree.mass, &cell)
                else {
                    let _ = self.items.push(entry);
                    return Err(PageName {
                        file: tree.cells,
                        page: page_at(tree.bits, key, page),
                    });
                };
                if opened != 0 {
                    self.open(&cell, entry.block, opened);
                }
                Ok(())
            }
            Sight::Next(next) => {
                let _ = self.items.push(SharedItem {
                    item: Item::Cell(key, next),
                    ..entry
                });
                Ok(())
            }
            Sight::Wants(_) => {
                let _ = self.waits.push(entry);
                Ok(())
            }
            Sight::Damaged(name) => {
                let _ = self.items.push(entry);
                Err(name)
            }
        }
    }

    /// Puts what an opened cell has among the items of those that opened it.
    fn open(&mut self, cell: &CellView<'_>, block: usize, walks: u64)
        requires form { IsCell cell.now }
        requires room { length self.old.items.items + 8 ≤ vec_capacity self.old.items }
        ensures items { self.new.items.items
            ≡ self.old.items.items ++ shared_by block walks (opened_items cell.now) }
        ensures capacity { vec_capacity self.old.items ≤ vec_capacity self.new.items }
        ensures tallies { self.new.tallies ≡ self.old.tallies }
        ensures owns { self.new.owns ≡ self.old.owns }
        ensures waits { self.new.waits ≡ self.old.waits }
        ensures room { self.new.room ≡ self.old.room }
    {
        let kids = cell.kids();
        if kids == 0 {
            let item = Item::Bodies(cell.first(), cell.count());
            let _ = self.items.push(SharedItem { item, block, walks });
            return;
        }
        let key = cell.key();
        for i in 0..8u8 {
            let octant = 7 - i;
            if (kids >> octant) % 2 == 1 {
                let item = Item::Cell(key.child(octant), 0);
                let _ = self.items.push(SharedItem { item, block, walks });
            }
        }
    }

    /// Looks at bodies that walks share: those on the page of the first.
    fn take_bodies<L: Lender>(
        &mut self,
        entry: SharedItem,
        from: u64,
        count: u64,
        params: &Params,
        tree: &Tree,
        lender: &L,
    ) -> Result<(), PageName>
        requires item { entry.item ≡ item.Bodies from count }
        requires tree { IsWalkable params.now tree.now }
        requires some { tree.now.count ≢ 0 }
        requires group { IsGroup self.old }
        requires tallies { AreTallies params.now self.old }
        requires shared { IsShared (length self.old.tallies.items) entry }
        requires small { IsItemInRange entry.item }
        requires room { length (all_shared self.old) + 8 ≤ self.old.room }
        ensures group { IsGroup self.new }
        ensures tallies { AreTallies params.now self.new }
        ensures rooms { KeepsRooms self.old self.new }
        ensures kept { Each (KeepsWalk params.now tree.now) (length self.old.tallies.items)
            (walks_with self.old entry) (group_walks self.new) }
        ensures took { OnOk result (TakesShared (L.cells lender.now) (L.bodies lender.now)
            params.now tree.now self.old entry self.new) }
        ensures damaged { (name : Names) → result ≡ Err name
            → BlamesOne (L.cells lender.now) (L.bodies lender.now) tree.now (group_walks self.new) name }
        ensures sound { (files : ℕ → List ℕ) (bodies : List Bodies) → IsTreeOf tree.now files params.now bodies
            → Shows (L.cells lender.now) (L.bodies lender.now) tree.now files
            → All (λ w. IsWalkOn params.now bodies tree.now (files tree.now.cells) w)
            (walks_with self.old entry) → IsOk result }
    {
        let name = PageName {
            file: tree.bodies,
            page: from / BODIES_PER_PAGE,
        };
        match lender.body_page(name.page) {
            None => {
                let _ = self.waits.push(entry);
                Ok(())
            }
            Some(Err(_)) => {
                let _ = self.items.push(entry);
                Err(name)
            }
            Some(Ok(page)) => {
                let index = from % BODIES_PER_PAGE;
                let here = count.min(BODIES_PER_PAGE - index);
                if index + here > page.count()
                    || !meet_bodies(
                        &mut self.tallies,
                        &entry,
                        params,
                        tree.mass,
                        &page,
                        index,
                        index + here,
                    )
                {
                    let _ = self.items.push(entry);
                    return Err(name);
                }
                if count > here {
                    let _ = self.items.push(SharedItem {
                        item: Item::Bodies(from + here, count - here),
                        ..entry
                    });
                }
                Ok(())
            }
        }
    }
}
