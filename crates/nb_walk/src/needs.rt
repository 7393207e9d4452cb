//! Which page each walk waits for.

ghost use Rattle.std.specs.Prelude.{◌≡◌, ℕ, ◌<◌, ◌≤◌, ◌↔◌, false, [], length, get_or, All, Contains, None, Some, vec_capacity};
ghost use Rattle.nb_host.specs.declared.page_name.PageName.{PageName as Names};
ghost use Rattle.nb_walk.specs.declared.group.Own.{Own as Owns};
ghost use Rattle.nb_walk.specs.declared.item.Item.{Item as SomeItem};
ghost use Rattle.nb_walk.specs.declared.shared.SharedItem.{SharedItem as Shares};
ghost use Rattle.nb_walk.specs.Group.{own_items, IsGroup, HaveNeeds, KeepsRooms, MayBeGiven, SomeNeed};
ghost use Rattle.nb_walk.specs.Items.{last_item, page_for};
ghost use Rattle.nb_walk.specs.Page.{IsPageOf};
ghost use Rattle.nb_walk.specs.Room.{IsItemInRange};
ghost use Rattle.nb_walk.specs.Running.{Each, EachAt};
ghost use Rattle.nb_walk.specs.Shared.{items_of, is_left_to};

use crate::group::{Group, Own};
use crate::item::Item;
use crate::shared::{SharedItem, is_left};
use crate::sight::page_at;
use nb_host::PageName;
use nb_record::{BODIES_PER_PAGE, Tree};

/// Has each walk wait at the last of its own items, or nowhere.
fn wait_for_own(owns: &mut [Own])
    ensures count { length owns.new ≡ length owns.old }
    ensures items { Each (λ (a : Owns) (b : Owns). b.items ≡ a.items) (length owns.old) owns.old owns.new }
    ensures needs { Each (λ a b. b.need ≡ last_item (own_items a)) (length owns.old) owns.old owns.new }
{
    for own in owns.iter_mut() {
        own.need = own.items.as_slice().last().copied();
    }
}

/// The first shared item that is left to walk i, from an index on up to another.
fn find_left(waits: &[SharedItem], i: usize, from: usize, end: usize) -> Option<Item>
    requires end { end ≤ length waits.now }
    ensures some { (x : SomeItem) → result ≡ Some x → Contains (items_of i waits.now) x }
    ensures none { result ≡ None → (j : ℕ) (d : Shares) → from ≤ j → j < end
        → is_left_to i (get_or waits.now j d) ≡ false }
{
    for j in from..end {
        let entry = &waits[j];
        if is_left(entry, i) {
            return Some(entry.item);
        }
    }
    None
}

/// A shared item that is left to walk i, where there is one: the first from an index on, and then from the
/// front.
fn find_around(waits: &[SharedItem], i: usize, start: usize) -> Option<Item>
    requires start { start ≤ length waits.now }
    ensures some { (x : SomeItem) → result ≡ Some x → Contains (items_of i waits.now) x }
    ensures none { result ≡ None → items_of i waits.now ≡ [] }
{
    match find_left(waits, i, start, waits.len()) {
        Some(item) => Some(item),
        None => find_left(waits, i, 0, start),
    }
}

/// Has each walk that waits nowhere yet wait at a shared item, where it has one left. Each looks for it from
/// another place of the list on, so that the walks wait for many different pages. The last block's items come
/// first in the list, since a pass takes them first.
fn wait_for_shared(owns: &mut [Own], waits: &[SharedItem])
    ensures count { length owns.new ≡ length owns.old }
    ensures given { EachAt (λ i. MayBeGiven waits.now i) (length owns.old) owns.old owns.new }
    ensures none { (i : ℕ) (d : Owns) → i < length owns.old → (get_or owns.new i d).need ≡ None
        → items_of i waits.now ≡ [] }
{
    let walks = owns.len();
    for i in 0..walks {
        if owns[i].need.is_none() {
            let start = (walks - 1 - i).wrapping_mul(waits.len()) / walks;
            owns[i].need = find_around(waits, i, start.min(waits.len()));
        }
    }
}

/// The name of the page of an item.
fn page_name(tree: &Tree, item: &Item) -> PageName
    requires bits { tree.now.bits ≤ 18 }
    requires small { IsItemInRange item.now }
    ensures name { result ≡ page_for tree.now item.now }
    ensures page { IsPageOf tree.now result }
{
    match *item {
        Item::Cell(key, page) => PageName {
            file: tree.cells,
            page: page_at(tree.bits, key, page),
        },
        Item::Bodies(from, _) => PageName {
            file: tree.bodies,
            page: from / BODIES_PER_PAGE,
        },
    }
}

impl Group {
    /// Says where each walk waits: at the last of its own items, or where it has none at a shared one, so that
    /// the walks together wait for many different pages.
    pub(crate) fn ask(&mut self)
        requires group { IsGroup self.old }
        ensures group { IsGroup self.new }
        ensures tallies { self.new.tallies ≡ self.old.tallies }
        ensures items { self.new.items ≡ self.old.items }
        ensures waits { self.new.waits ≡ self.old.waits }
        ensures rooms { KeepsRooms self.old self.new }
        ensures owns { Each (λ (a : Owns) (b : Owns). b.items ≡ a.items) (length self.old.owns.items)
            self.old.owns.items self.new.owns.items }
        ensures needs { self.old.items.items ≡ [] → HaveNeeds self.new }
    {
        wait_for_own(&mut self.owns);
        wait_for_shared(&mut self.owns, &self.waits);
    }

    /// The names of the pages for which walks wait, each as often as there are such walks.
    pub(crate) fn gather(&self, tree: &Tree, wants: &mut Vec<PageName>)
        requires bits { tree.now.bits ≤ 18 }
        requires group { IsGroup self.now }
        requires needs { HaveNeeds self.now }
        requires empty { wants.old.items ≡ [] }
        requires room { length self.now.owns.items ≤ vec_capacity wants.old }
        ensures names { (name : Names) → Contains wants.new.items name ↔ SomeNeed tree.now self.now.owns.items name }
        ensures pages { All (IsPageOf tree.now) wants.new.items }
        ensures capacity { vec_capacity wants.old ≤ vec_capacity wants.new }
    {
        for own in &self.owns {
            if let Some(item) = &own.need {
                let _ = wants.push(page_name(tree, item));
            }
        }
    }
}
