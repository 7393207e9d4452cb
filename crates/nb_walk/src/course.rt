//! A walk that hands out its interaction list term by term.

ghost use Rattle.std.specs.Prelude.{◌≡◌, ◌≢◌, ◌↔◌, ◌⊎◌, ℕ, ◌^◌, ◌<◌, ◌≤◌, None, [], ◌∷◌, ◌++◌, length, MatchOption, option_to_list};
ghost use Rattle.nb_model.specs.declared.params.Params.{Params as Parameters};
ghost use Rattle.nb_model.specs.Valid.{AreInRange, IsInBox};
ghost use Rattle.nb_host.specs.declared.page_name.PageName.{PageName as Names};
ghost use Rattle.nb_walk.specs.declared.item.Item.TheVariants as item;
ghost use Rattle.nb_record.specs.Pages.{record_count};
ghost use Rattle.nb_record.specs.Records.{body_record, body_of, IsBodyRecord};
ghost use Rattle.nb_walk.specs.Terms.{Acceptance};
ghost use Rattle.nb_walk.specs.Items.{chain_page, page_for, root_items};
ghost use Rattle.nb_walk.specs.Left.{step_bound};
ghost use Rattle.nb_walk.specs.Looks.{IsOneLook, next_bodies};
ghost use Rattle.nb_walk.specs.Room.{HasRoom};
ghost use Rattle.nb_walk.specs.Shown.{BlamesNext, WaitsFor, next_item};
ghost use Rattle.nb_walk.specs.Course.{IsMove, IsStill, IsTermInRange, OverTree};

use crate::item::Item;
use crate::items::{Items, MOST_ITEMS, open};
use crate::opening::Opening;
use crate::sight::{Sight, look_at};
use crate::step::Step;
use crate::term::Term;
use arrayvec::ArrayVec;
use nb_host::PageName;
use nb_key::Key;
use nb_model::{At, Body, Params};
use nb_record::{BODIES_PER_PAGE, BodyPage, Lender, Tree};
use std::marker::Model;

/// A walk down a tree that hands out what acts on its target, term by term: a cell where the opening takes it
/// as one mass, and a body of a leaf that it opens. It stops where a page isn't shown, and takes no memory.
#[derive(Drop)]
pub struct Course<O> {
    opening: O,
    target: At,
    items: Items,
}

impl<O> Model for Course<O> {
    ghost use Rattle.nb_model.specs.Valid.{IsInBox};
    ghost use Rattle.nb_walk.specs.Room.{HasRoom};
    ghost use Rattle.nb_walk.specs.Course.{CourseValue};

    ghost Value = { CourseValue O };

    ghost view = { λ c. record { opening = c.opening; target = c.target; items = c.items.items } };

    ghost invariant = { λ c. IsInBox c.target × HasRoom c.items.items };
}

impl<O: Opening> Course<O> {
    /// A course with the root cell left, for a target in the box, in box units.
    pub fn start(opening: O, target: At) -> Course<O>
        requires { IsInBox target }
        ensures { result ≡ record { opening = opening; target = target; items = root_items } }
    {
        let mut items = ArrayVec::new();
        items.push(Item::Cell(Key::root(), 0));
        Course {
            opening,
            target,
            items,
        }
    }

    /// Looks at one page of a chain, or at one body of a leaf. Wants comes where the next item's page isn't
    /// shown, and Damaged only where a shown page isn't the tree's. After Damaged the course may be any.
    pub fn step<L: Lender>(&mut self, params: &Params, tree: &Tree, lender: &L) -> Step
        requires params { AreInRange params.now }
        requires bits { tree.now.bits ≤ 18 }
        requires pages { tree.now.pages < 2 ^ 48 }
        ensures wants { (name : Names) → ((result ≡ Step.Wants name)
            ↔ WaitsFor (L.cells lender.now) (L.bodies lender.now) tree.now self.old.items name) }
        ensures damaged { (name : Names) → result ≡ Step.Damaged name
            → BlamesNext (L.cells lender.now) (L.bodies lender.now) tree.now self.old.items name }
        ensures finished { (result ≡ Step.Finished) ↔ (next_item tree.now self.old.items ≡ None) }
        ensures same { IsStill result → self.new ≡ self.old }
        ensures kept { (self.new.opening ≡ self.old.opening) × (self.new.target ≡ self.old.target) }
        ensures form { IsTermInRange result }
        ensures look { IsMove result
            → IsOneLook next_bodies (L.cells lender.now) (L.bodies lender.now) tree.now
            self.old.items self.new.items }
        ensures lower { IsMove result
            → step_bound tree.now self.new.items < step_bound tree.now self.old.items }
        ensures tree { OverTree (O.meaning self.old.opening params.now self.old.target) params.now tree.now
            (L.cells lender.now) (L.bodies lender.now) self.old.items self.new.items result }
    {
        if tree.count == 0 {
            return Step::Finished;
        }
        let Course {
            opening,
            target,
            items,
        } = self;
        let Some(item) = take_last(items) else {
            return Step::Finished;
        };
        match item {
            Item::Cell(key, page) => {
                cell_step(items, key, page, opening, target, params, tree, lender)
            }
            Item::Bodies(from, count) => bodies_step(items, from, count, tree, lender),
        }
    }
}

/// Takes the next item.
pub(crate) fn take_last(items: &mut Items) -> Option<Item>
    ensures items { items.old.items ≡ items.new.items ++ option_to_list result }
    ensures empty { result ≡ None → length items.old.items ≡ 0 }
{
    items.pop()
}

/// A step at a cell, which was taken from the items.
fn cell_step<O: Opening, L: Lender>(
    items: &mut Items,
    key: Key,
    page: u64,
    opening: &O,
    target: &At,
    params: &Params,
    tree: &Tree,
    lender: &L,
) -> Step
    requires params { AreInRange params.now }
    requires target { IsInBox target.now }
    requires bits { tree.now.bits ≤ 18 }
    requires pages { tree.now.pages < 2 ^ 48 }
    requires some { tree.now.count ≢ 0 }
    requires room { HasRoom (items.old.items ++ item.Cell key page ∷ []) }
    ensures wants { (name : Names) → ((result ≡ Step.Wants name)
        ↔ ((name ≡ page_for tree.now (item.Cell key page))
        × (L.cells lender.now (chain_page tree.now.bits key page) ≡ None))) }
    ensures damaged { (name : Names) → result ≡ Step.Damaged name
        → (name ≡ page_for tree.now (item.Cell key page))
        × (L.cells lender.now (chain_page tree.now.bits key page) ≢ None) }
    ensures unfinished { result ≢ Step.Finished }
    ensures room { HasRoom items.new.items }
    ensures same { IsStill result → items.new.items ≡ items.old.items ++ item.Cell key page ∷ [] }
    ensures form { IsTermInRange result }
    ensures look { IsMove result
        → IsOneLook next_bodies (L.cells lender.now) (L.bodies lender.now) tree.now
        (items.old.items ++ item.Cell key page ∷ []) items.new.items }
    ensures lower { IsMove result → step_bound tree.now items.new.items
        < step_bound tree.now (items.old.items ++ item.Cell key page ∷ []) }
    ensures tree { OverTree (O.meaning opening.now params.now target.now) params.now tree.now
        (L.cells lender.now) (L.bodies lender.now)
        (items.old.items ++ item.Cell key page ∷ []) items.new.items result }
{
    match look_at(tree, lender, key, page) {
        Sight::Cell(cell) => {
            if opening.whole(params, target, &cell) {
                return Step::Term(Term::Cell(cell.mass(), cell.centre()));
            }
            open(items, &cell);
            Step::Moved
        }
        Sight::Next(next) => {
            items.push(Item::Cell(key, next));
            Step::Moved
        }
        Sight::Wants(name) => {
            items.push(Item::Cell(key, page));
            Step::Wants(name)
        }
        Sight::Damaged(name) => Step::Damaged(name),
    }
}

/// A step at the bodies of a leaf, which were taken from the items.
fn bodies_step<L: Lender>(items: &mut Items, from: u64, count: u64, tree: &Tree, lender: &L) -> Step
    requires some { tree.now.count ≢ 0 }
    requires room { HasRoom (items.old.items ++ item.Bodies from count ∷ []) }
    ensures wants { (name : Names) → ((result ≡ Step.Wants name)
        ↔ ((name ≡ page_for tree.now (item.Bodies from count)) × (L.bodies lender.now name.page ≡ None))) }
    ensures damaged { (name : Names) → result ≡ Step.Damaged name
        → (name ≡ page_for tree.now (item.Bodies from count)) × (L.bodies lender.now name.page ≢ None) }
    ensures unfinished { result ≢ Step.Finished }
    ensures room { HasRoom items.new.items }
    ensures same { IsStill result → items.new.items ≡ items.old.items ++ item.Bodies from count ∷ [] }
    ensures form { IsTermInRange result }
    ensures look { IsMove result
        → IsOneLook next_bodies (L.cells lender.now) (L.bodies lender.now) tree.now
        (items.old.items ++ item.Bodies from count ∷ []) items.new.items }
    ensures lower { IsMove result → step_bound tree.now items.new.items
        < step_bound tree.now (items.old.items ++ item.Bodies from count ∷ []) }
    ensures tree { (accepts : Acceptance) (params : Parameters) → OverTree accepts params tree.now
        (L.cells lender.now) (L.bodies lender.now)
        (items.old.items ++ item.Bodies from count ∷ []) items.new.items result }
{
    let name = PageName {
        file: tree.bodies,
        page: from / BODIES_PER_PAGE,
    };
    match lender.body_page(name.page) {
        None => {
            items.push(Item::Bodies(from, count));
            Step::Wants(name)
        }
        Some(Err(_)) => Step::Damaged(name),
        Some(Ok(page)) => match body_at(&page, from % BODIES_PER_PAGE) {
            None => Step::Damaged(name),
            Some(body) => {
                if count > 1 {
                    items.push(Item::Bodies(from + 1, count - 1));
                }
                Step::Term(Term::Body(body))
            }
        },
    }
}

/// Body i of a page, where the page has one there.
fn body_at(page: &BodyPage<'_>, i: u64) -> Option<Body>
    ensures { MatchOption result (i < record_count page.now → ¬ IsBodyRecord (body_record i page.now))
        (λ body. (i < record_count page.now) × IsBodyRecord (body_record i page.now)
        × (body ≡ body_of (body_record i page.now))) }
{
    if i >= page.count() {
        return None;
    }
    page.body(i)
}
