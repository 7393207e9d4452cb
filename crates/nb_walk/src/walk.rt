//! A walk that sums up the pulls on its target.

ghost use Rattle.std.specs.Prelude.{◌≡◌, ◌≢◌, ◌↔◌, ◌+◌, ◌*◌, ◌<◌, ◌≤◌, ◌^◌, true, false, IsTrue, None, Some, [], ◌∷◌, ◌++◌, OnOk, MatchOption, Ok, Err};
ghost use Rattle.nb_model.specs.Valid.{IsInBox};
ghost use Rattle.nb_key.specs.Morton.{morton_key};
ghost use Rattle.nb_host.specs.declared.page_name.PageName.{PageName as Names};
ghost use Rattle.nb_walk.specs.declared.item.Item.{Item as SomeItem};
ghost use Rattle.nb_walk.specs.declared.item.Item.TheVariants as item;
ghost use Rattle.nb_walk.specs.Items.{chain_page, page_for, last_item, root_items};
ghost use Rattle.nb_walk.specs.Left.{step_bound, remaining_pages};
ghost use Rattle.nb_walk.specs.Looks.{IsOneLook, later_bodies};
ghost use Rattle.nb_walk.specs.Room.{HasRoom, IsItemInRange};
ghost use Rattle.nb_walk.specs.Shown.{IsWalkable, IsAtMost, BlamesNext, WaitsFor, next_item, shown_for};
ghost use Rattle.nb_walk.specs.Taking.{TakesTree};
ghost use Rattle.nb_walk.specs.Walk.{new_walk, IsSumInRange, IsWithin, IsWalkOn, Lowers, OnTree, VisitsTree, IsBlocked, CanVisit, RunsTree};
ghost use Rattle.nb_walk.specs.Page.{IsPageOf};

use crate::course::take_last;
use crate::item::Item;
use crate::items::{Items, open};
use crate::sight::{Sight, look_at, page_at};
use crate::tally::Tally;
use crate::visit::Visit;
use arrayvec::ArrayVec;
use nb_host::PageName;
use nb_key::Key;
use nb_model::{At, Params, V3};
use nb_record::{BODIES_PER_PAGE, BodyPage, Lender, Tree};
use std::marker::Model;

/// A walk down a tree that sums up what acts on its target by the opening angle. It stops where a page isn't
/// shown, and takes no memory.
#[derive(Drop)]
pub struct Walk {
    tally: Tally,
    items: Items,
}

impl Model for Walk {
    ghost use Rattle.std.specs.Prelude.{◌≡◌};
    ghost use Rattle.nb_model.specs.Valid.{IsInBox};
    ghost use Rattle.nb_key.specs.Morton.{morton_key};
    ghost use Rattle.nb_walk.specs.Room.{HasRoom};
    ghost use Rattle.nb_walk.specs.Walk.{WalkValue};

    ghost Value = { WalkValue };

    ghost view = { λ w. record {
      target = w.tally.target;
      sum = w.tally.sum;
      taken = w.tally.taken;
      items = w.items.items;
    } };

    ghost invariant = { λ w.
        IsInBox w.tally.target × (w.tally.key ≡ morton_key w.tally.target) × HasRoom w.items.items };
}

impl Walk {
    /// A walk with the root cell left and no pulls yet, for a target in the box, in box units.
    pub fn start(target: At) -> Walk
        requires { IsInBox target }
        ensures { result ≡ new_walk target }
    {
        let mut items = ArrayVec::new();
        items.push(Item::Cell(Key::root(), 0));
        Walk {
            tally: Tally::start(target),
            items,
        }
    }

    /// Looks at one page: of a key's chain, or of the bodies of a leaf. Wants comes where the next item's
    /// page isn't shown, and Damaged only where a shown page isn't the tree's: the items are then as they
    /// were, and the sum may have part of a page in it.
    pub fn visit<L: Lender>(&mut self, params: &Params, tree: &Tree, lender: &L) -> Visit
        requires tree { IsWalkable params.now tree.now }
        requires range { IsSumInRange params.now self.old }
        ensures target { self.new.target ≡ self.old.target }
        ensures range { IsSumInRange params.now self.new }
        ensures within { IsWithin tree.now.mass self.old → IsWithin tree.now.mass self.new }
        ensures wants { (name : Names) → ((result ≡ Visit.Wants name)
            ↔ WaitsFor (L.cells lender.now) (L.bodies lender.now) tree.now self.old.items name) }
        ensures same { (name : Names) → result ≡ Visit.Wants name → self.new ≡ self.old }
        ensures finished { (result ≡ Visit.Finished) ↔ (next_item tree.now self.old.items ≡ None) }
        ensures done { result ≡ Visit.Finished → self.new ≡ record {
          target = self.old.target;
          sum = self.old.sum;
          taken = self.old.taken;
          items = [];
        } }
        ensures damaged { (name : Names) → result ≡ Visit.Damaged name
            → BlamesNext (L.cells lender.now) (L.bodies lender.now) tree.now self.old.items name }
        ensures kept { (name : Names) → result ≡ Visit.Damaged name → self.new.items ≡ self.old.items }
        ensures look { result ≡ Visit.Moved
            → IsOneLook later_bodies (L.cells lender.now) (L.bodies lender.now) tree.now
            self.old.items self.new.items }
        ensures lower { Lowers result (step_bound tree.now self.old.items)
            (step_bound tree.now self.new.items) }
        ensures tree { OnTree params.now tree.now (L.cells lender.now) (L.bodies lender.now) self.old
            (λ bodies file. VisitsTree params.now bodies tree.now file self.old self.new result) }
    {
        let Walk { tally, items } = self;
        if tree.count == 0 {
            items.clear();
            return Visit::Finished;
        }
        visit_item(items, tally, params, tree, lender)
    }

    /// The pulls so far, in box units a tick.
    pub fn sum(&self) -> V3
        ensures { result ≡ self.now.sum }
    {
        self.tally.sum
    }
}

/// A visit at the next item, where one is left.
pub(crate) fn visit_item<L: Lender>(
    items: &mut Items,
    tally: &mut Tally,
    params: &Params,
    tree: &Tree,
    lender: &L,
) -> Visit
    requires tree { IsWalkable params.now tree.now }
    requires some { tree.now.count ≢ 0 }
    requires target { IsInBox tally.old.target }
    requires key { tally.old.key ≡ morton_key tally.old.target }
    requires range { IsAtMost (params.now.grav * tally.old.taken) tally.old.sum }
    requires room { HasRoom items.old.items }
    ensures wants { (name : Names) → ((result ≡ Visit.Wants name)
        ↔ WaitsFor (L.cells lender.now) (L.bodies lender.now) tree.now items.old.items name) }
    ensures same { (name : Names) → result ≡ Visit.Wants name
        → (items.new.items ≡ items.old.items) × (tally.new ≡ tally.old) }
    ensures finished { (result ≡ Visit.Finished) ↔ (items.old.items ≡ []) }
    ensures done { result ≡ Visit.Finished → (items.new.items ≡ []) × (tally.new ≡ tally.old) }
    ensures damaged { (name : Names) → result ≡ Visit.Damaged name
        → BlamesNext (L.cells lender.now) (L.bodies lender.now) tree.now items.old.items name }
    ensures kept { (name : Names) → result ≡ Visit.Damaged name → items.new.items ≡ items.old.items }
    ensures room { HasRoom items.new.items }
    ensures target { tally.new.target ≡ tally.old.target }
    ensures key { tally.new.key ≡ tally.old.key }
    ensures range { IsAtMost (params.now.grav * tally.new.taken) tally.new.sum }
    ensures within { tally.old.taken ≤ tree.now.mass → tally.new.taken ≤ tree.now.mass }
    ensures look { result ≡ Visit.Moved
        → IsOneLook later_bodies (L.cells lender.now) (L.bodies lender.now) tree.now
        items.old.items items.new.items }
    ensures lower { Lowers result (step_bound tree.now items.old.items)
        (step_bound tree.now items.new.items) }
    ensures tree { result ≢ Visit.Finished → TakesTree params.now tree.now (L.cells lender.now)
        (L.bodies lender.now) items.old.items items.new.items tally.old tally.new result }
{
    let Some(item) = take_last(items) else {
        return Visit::Finished;
    };
    match item {
        Item::Cell(key, page) => visit_cell(items, tally, key, page, params, tree, lender),
        Item::Bodies(from, count) => {
            visit_bodies(items, tally, from, count, params, tree, lender)
        }
    }
}

/// A visit at a cell, which was taken from the items.
fn visit_cell<L: Lender>(
    items: &mut Items,
    tally: &mut Tally,
    key: Key,
    page: u64,
    params: &Params,
    tree: &Tree,
    lender: &L,
) -> Visit
    requires tree { IsWalkable params.now tree.now }
    requires target { IsInBox tally.old.target }
    requires key { tally.old.key ≡ morton_key tally.old.target }
    requires range { IsAtMost (params.now.grav * tally.old.taken) tally.old.sum }
    requires some { tree.now.count ≢ 0 }
    requires room { HasRoom (items.old.items ++ item.Cell key page ∷ []) }
    ensures wants { (name : Names) → ((result ≡ Visit.Wants name)
        ↔ ((name ≡ page_for tree.now (item.Cell key page))
        × (L.cells lender.now (chain_page tree.now.bits key page) ≡ None))) }
    ensures damaged { (name : Names) → result ≡ Visit.Damaged name
        → (name ≡ page_for tree.now (item.Cell key page))
        × (L.cells lender.now (chain_page tree.now.bits key page) ≢ None) }
    ensures unfinished { result ≢ Visit.Finished }
    ensures room { HasRoom items.new.items }
    ensures same { (name : Names) → result ≡ Visit.Wants name
        → (items.new.items ≡ items.old.items ++ item.Cell key page ∷ []) × (tally.new ≡ tally.old) }
    ensures target { tally.new.target ≡ tally.old.target }
    ensures key { tally.new.key ≡ tally.old.key }
    ensures range { IsAtMost (params.now.grav * tally.new.taken) tally.new.sum }
    ensures within { tally.old.taken ≤ tree.now.mass → tally.new.taken ≤ tree.now.mass }
    ensures kept { (name : Names) → result ≡ Visit.Damaged name
        → items.new.items ≡ items.old.items ++ item.Cell key page ∷ [] }
    ensures look { result ≡ Visit.Moved
        → IsOneLook later_bodies (L.cells lender.now) (L.bodies lender.now) tree.now
        (items.old.items ++ item.Cell key page ∷ []) items.new.items }
    ensures lower { Lowers result (step_bound tree.now (items.old.items ++ item.Cell key page ∷ []))
        (step_bound tree.now items.new.items) }
    ensures tree { TakesTree params.now tree.now (L.cells lender.now) (L.bodies lender.now)
        (items.old.items ++ item.Cell key page ∷ []) items.new.items tally.old tally.new result }
{
    match look_at(tree, lender, key, page) {
        Sight::Cell(cell) => {
            if !tally.accepts(params, &cell) {
                open(items, &cell);
                return Visit::Moved;
            }
            if !tally.add(params, tree.mass, cell.mass(), &cell.centre()) {
                items.push(Item::Cell(key, page));
                return Visit::Damaged(PageName {
                    file: tree.cells,
                    page: page_at(tree.bits, key, page),
                });
            }
            Visit::Moved
        }
        Sight::Next(next) => {
            items.push(Item::Cell(key, next));
            Visit::Moved
        }
        Sight::Wants(name) => {
            items.push(Item::Cell(key, page));
            Visit::Wants(name)
        }
        Sight::Damaged(name) => {
            items.push(Item::Cell(key, page));
            Visit::Damaged(name)
        }
    }
}

/// A visit at the bodies of a leaf, which were taken from the items: those on the page of the first.
fn visit_bodies<L: Lender>(
    items: &mut Items,
    tally: &mut Tally,
    from: u64,
    count: u64,
    params: &Params,
    tree: &Tree,
    lender: &L,
) -> Visit
    requires tree { IsWalkable params.now tree.now }
    requires target { IsInBox tally.old.target }
    requires range { IsAtMost (params.now.grav * tally.old.taken) tally.old.sum }
    requires some { tree.now.count ≢ 0 }
    requires room { HasRoom (items.old.items ++ item.Bodies from count ∷ []) }
    ensures wants { (name : Names) → ((result ≡ Visit.Wants name)
        ↔ ((name ≡ page_for tree.now (item.Bodies from count)) × (L.bodies lender.now name.page ≡ None))) }
    ensures damaged { (name : Names) → result ≡ Visit.Damaged name
        → (name ≡ page_for tree.now (item.Bodies from count)) × (L.bodies lender.now name.page ≢ None) }
    ensures unfinished { result ≢ Visit.Finished }
    ensures room { HasRoom items.new.items }
    ensures same { (name : Names) → result ≡ Visit.Wants name
        → (items.new.items ≡ items.old.items ++ item.Bodies from count ∷ []) × (tally.new ≡ tally.old) }
    ensures target { tally.new.target ≡ tally.old.target }
    ensures key { tally.new.key ≡ tally.old.key }
    ensures range { IsAtMost (params.now.grav * tally.new.taken) tally.new.sum }
    ensures within { tally.old.taken ≤ tree.now.mass → tally.new.taken ≤ tree.now.mass }
    ensures kept { (name : Names) → result ≡ Visit.Damaged name
        → items.new.items ≡ items.old.items ++ item.Bodies from count ∷ [] }
    ensures look { result ≡ Visit.Moved
        → IsOneLook later_bodies (L.cells lender.now) (L.bodies lender.now) tree.now
        (items.old.items ++ item.Bodies from count ∷ []) items.new.items }
    ensures lower { Lowers result (step_bound tree.now (items.old.items ++ item.Bodies from count ∷ []))
        (step_bound tree.now items.new.items) }
    ensures tree { TakesTree params.now tree.now (L.cells lender.now) (L.bodies lender.now)
        (items.old.items ++ item.Bodies from count ∷ []) items.new.items tally.old tally.new result }
{
    let name = PageName {
        file: tree.bodies,
        page: from / BODIES_PER_PAGE,
    };
    match lender.body_page(name.page) {
        None => {
            items.push(Item::Bodies(from, count));
            Visit::Wants(name)
        }
        Some(Err(_)) => {
            items.push(Item::Bodies(from, count));
            Visit::Damaged(name)
        }
        Some(Ok(page)) => {
            let index = from % BODIES_PER_PAGE;
            let here = count.min(BODIES_PER_PAGE - index);
            if index + here > page.count() {
                items.push(Item::Bodies(from, count));
                return Visit::Damaged(name);
            }
            if !tally.add_bodies(params, tree.mass, &page, index, index + here) {
                items.push(Item::Bodies(from, count));
                return Visit::Damaged(name);
            }
            if count > here {
                items.push(Item::Bodies(from + here, count - here));
            }
            Visit::Moved
        }
    }
}
