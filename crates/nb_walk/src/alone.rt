//! What a walk takes by itself, in order: where the shared items have no room left.

ghost use Rattle.std.specs.Prelude.{◌≡◌, ◌≢◌, ◌↔◌, ℕ, List, Option, ◌+◌, ◌*◌, ◌<◌, ◌≤◌, ◌⊎◌, true, false, IsTrue, [], ◌∷◌, ◌++◌, length, get_or, All, None, Some, Ok, Err, OnOk, IsOk, vec_capacity};
ghost use Rattle.nb_model.specs.declared.body.Body.{Body as Bodies};
ghost use Rattle.nb_host.specs.declared.page_name.PageName.{PageName as Names};
ghost use Rattle.nb_record.specs.Tree.{IsTreeOf};
ghost use Rattle.nb_walk.specs.declared.item.Item.{Item as SomeItem};
ghost use Rattle.nb_walk.specs.Group.{all_shared, group_walks, walks_with, own_items, IsGroup, AreTallies, AreAtRest, TakesShared, KeepsRooms, RunsOwn, SharesOut, HandsOut};
ghost use Rattle.nb_walk.specs.Items.{last_item};
ghost use Rattle.nb_walk.specs.Left.{step_bound};
ghost use Rattle.nb_walk.specs.Part.{IsTally, KeepsTally, OnPart, TakesPart};
ghost use Rattle.nb_walk.specs.Pool.{BlamesOne};
ghost use Rattle.nb_walk.specs.Room.{HasRoom, IsItemInRange};
ghost use Rattle.nb_walk.specs.Running.{KeepsWalk, Each, EachAt};
ghost use Rattle.nb_walk.specs.Shared.{is_left_to, IsShared};
ghost use Rattle.nb_walk.specs.Shown.{IsWalkable, BlamesNext, Shows, shown_for};
ghost use Rattle.nb_walk.specs.Walk.{IsBlocked, CanVisit, IsWalkOn};

use crate::group::{Group, Own};
use crate::item::Item;
use crate::items::Items;
use crate::shared::{BLOCK, SharedItem, has, with};
use crate::sight::page_at;
use crate::tally::Tally;
use crate::visit::Visit;
use crate::walk::visit_item;
use nb_host::PageName;
use nb_model::Params;
use nb_record::{BODIES_PER_PAGE, Lender, Tree};

/// Visits a walk's own items, in order, until none is left or the page of the next isn't shown.
fn run_own<L: Lender>(
    items: &mut Items,
    tally: &mut Tally,
    params: &Params,
    tree: &Tree,
    lender: &L,
) -> Result<(), PageName>
    requires tree { IsWalkable params.now tree.now }
    requires some { tree.now.count ≢ 0 }
    requires tally { IsTally params.now tally.old }
    requires room { HasRoom items.old.items }
    ensures room { HasRoom items.new.items }
    ensures kept { KeepsTally params.now tree.now.mass tally.old tally.new }
    ensures bound { step_bound tree.now items.new.items ≤ step_bound tree.now items.old.items }
    ensures took { OnOk result (TakesPart (L.cells lender.now) (L.bodies lender.now) params.now tree.now 0
        items.old.items items.new.items tally.old tally.new) }
    ensures rests { OnOk result ((x : SomeItem) → last_item items.new.items ≡ Some x
        → shown_for (L.cells lender.now) (L.bodies lender.now) tree.now x ≡ None) }
    ensures stays { ((x : SomeItem) → last_item items.old.items ≡ Some x
        → shown_for (L.cells lender.now) (L.bodies lender.now) tree.now x ≡ None)
        → items.new.items ≡ items.old.items }
    ensures looked { CanVisit (L.cells lender.now) (L.bodies lender.now) tree.now items.old.items
        → OnOk result (TakesPart (L.cells lender.now) (L.bodies lender.now) params.now tree.now 1
        items.old.items items.new.items tally.old tally.new) }
    ensures damaged { (name : Names) → result ≡ Err name
        → BlamesNext (L.cells lender.now) (L.bodies lender.now) tree.now items.new.items name }
    ensures sound { OnPart params.now tree.now (L.cells lender.now) (L.bodies lender.now) items.old.items tally.old
        (λ bodies file. IsOk result) }
{
    loop {
        match visit_item(items, tally, params, tree, lender) {
            Visit::Moved => {}
            Visit::Wants(_) | Visit::Finished => return Ok(()),
            Visit::Damaged(name) => return Err(name),
        }
    }
}

/// Whether the page of an item is shown.
fn is_shown<L: Lender>(item: &Item, tree: &Tree, lender: &L) -> bool
    requires bits { tree.now.bits ≤ 18 }
    ensures { IsTrue result ↔ (shown_for (L.cells lender.now) (L.bodies lender.now) tree.now item.now ≢ None) }
{
    match *item {
        Item::Cell(key, page) => lender.cell_page(page_at(tree.bits, key, page)).is_some(),
        Item::Bodies(from, _) => lender.body_page(from / BODIES_PER_PAGE).is_some(),
    }
}

/// Has each walk that shares an item and has none of its own take it for its own; answers the set of the
/// others.
fn share_out(owns: &mut [Own], entry: &SharedItem) -> u64
    requires shared { IsShared (length owns.old) entry.now }
    requires small { IsItemInRange entry.now.item }
    requires rooms { All (λ o. HasRoom (own_items o)) owns.old }
    ensures count { length owns.new ≡ length owns.old }
    ensures rooms { All (λ o. HasRoom (own_items o)) owns.new }
    ensures shares { EachAt (λ i. SharesOut entry.now.item (is_left_to i entry.now)
        (is_left_to i (record { item = entry.now.item; block = entry.now.block; walks = result })))
        (length owns.old) owns.old owns.new }
    ensures some { (result ≡ 0) ⊎ IsShared (length owns.old)
        (record { item = entry.now.item; block = entry.now.block; walks = result }) }
    ensures none { result ≡ 0 → (i : ℕ)
        → is_left_to i (record { item = entry.now.item; block = entry.now.block; walks = result }) ≡ false }
{
    let first = entry.block * BLOCK;
    let end = owns.len().min(first + BLOCK);
    let mut others = 0;
    for i in first..end {
        let k = i - first;
        if has(entry.walks, k) {
            if owns[i].items.is_empty() {
                owns[i].items.push(entry.item);
            } else {
                others = with(others, k);
            }
        }
    }
    others
}

impl Group {
    /// Has each walk visit its own items, in order, until none is left or the page of the next isn't shown.
    pub(crate) fn run_alone<L: Lender>(
        &mut self,
        params: &Params,
        tree: &Tree,
        lender: &L,
    ) -> Result<(), PageName>
        requires tree { IsWalkable params.now tree.now }
        requires some { tree.now.count ≢ 0 }
        requires group { IsGroup self.old }
        requires tallies { AreTallies params.now self.old }
        ensures group { IsGroup self.new }
        ensures tallies { AreTallies params.now self.new }
        ensures rooms { KeepsRooms self.old self.new }
        ensures items { self.new.items ≡ self.old.items }
        ensures waits { self.new.waits ≡ self.old.waits }
        ensures kept { Each (KeepsWalk params.now tree.now) (length self.old.tallies.items)
            (group_walks self.old) (group_walks self.new) }
        ensures ran { OnOk result (RunsOwn (L.cells lender.now) (L.bodies lender.now)
            params.now tree.now self.old self.new) }
        ensures damaged { (name : Names) → result ≡ Err name
            → BlamesOne (L.cells lender.now) (L.bodies lender.now) tree.now (group_walks self.new) name }
        ensures sound { (files : ℕ → List ℕ) (bodies : List Bodies) → IsTreeOf tree.now files params.now bodies
            → Shows (L.cells lender.now) (L.bodies lender.now) tree.now files
            → All (λ w. IsWalkOn params.now bodies tree.now (files tree.now.cells) w) (group_walks self.old)
            → IsOk result }
    {
        for i in 0..self.tallies.len() {
            run_own(
                &mut self.owns[i].items,
                &mut self.tallies[i],
                params,
                tree,
                lender,
            )?;
        }
        Ok(())
    }

    /// Looks at a shared item where there is no room for more: each walk that has no items of its own takes it
    /// by itself, and for the others it waits.
    pub(crate) fn take_alone<L: Lender>(
        &mut self,
        entry: SharedItem,
        params: &Params,
        tree: &Tree,
        lender: &L,
    ) -> Result<(), PageName>
        requires tree { IsWalkable params.now tree.now }
        requires some { tree.now.count ≢ 0 }
        requires group { IsGroup self.old }
        requires tallies { AreTallies params.now self.old }
        requires shared { IsShared (length self.old.tallies.items) entry }
        requires small { IsItemInRange entry.item }
        requires room { length (all_shared self.old) < self.old.room }
        ensures group { IsGroup self.new }
        ensures tallies { AreTallies params.now self.new }
        ensures rooms { KeepsRooms self.old self.new }
        ensures kept { Each (KeepsWalk params.now tree.now) (length self.old.tallies.items)
            (walks_with self.old entry) (group_walks self.new) }
        ensures took { OnOk result (TakesShared (L.cells lender.now) (L.bodies lender.now)
            params.now tree.now self.old entry self.new) }
        ensures damaged { (name : Names) → result ≡ Err name
            → BlamesOne (L.cells lender.now) (L.bodies lender.now) tree.now (group_walks self.new) name }
        ensures sound { (files : ℕ → List ℕ) (bodies : List Bodies) → IsTreeOf tree.now files params.now bodies
            → Shows (L.cells lender.now) (L.bodies lender.now) tree.now files
            → All (λ w. IsWalkOn params.now bodies tree.now (files tree.now.cells) w)
            (walks_with self.old entry) → IsOk result }
    {
        if !is_shown(&entry.item, tree, lender) {
            let _ = self.waits.push(entry);
            return Ok(());
        }
        self.hand_out(entry);
        self.run_alone(params, tree, lender)
    }

    /// Has each walk that shares an item and has none of its own take it for its own; for the others it waits.
    fn hand_out(&mut self, entry: SharedItem)
        requires group { IsGroup self.old }
        requires shared { IsShared (length self.old.tallies.items) entry }
        requires small { IsItemInRange entry.item }
        requires room { length (all_shared self.old) < self.old.room }
        ensures group { IsGroup self.new }
        ensures rooms { KeepsRooms self.old self.new }
        ensures hands { HandsOut self.old entry self.new }
    {
        let others = share_out(&mut self.owns, &entry);
        if others != 0 {
            let _ = self.waits.push(SharedItem {
                walks: others,
                ..entry
            });
        }
    }
}
