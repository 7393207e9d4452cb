//! The items that a walk has left.

ghost use Rattle.std.specs.Prelude.{◌≡◌, ◌<◌, ◌≤◌, ◌*◌, ◌+◌, [], ◌∷◌, ◌++◌, length};
ghost use Rattle.nb_model.specs.Gravity.{octants};
ghost use Rattle.nb_key.specs.Morton.{IsKey};
ghost use Rattle.nb_record.specs.Records.{IsCell};
ghost use Rattle.nb_walk.specs.declared.item.Item.TheVariants as item;
ghost use Rattle.nb_walk.specs.Angle.{level_of};
ghost use Rattle.nb_walk.specs.Room.{HasRoom};
ghost use Rattle.nb_walk.specs.Looks.{kid_items, opened_items};

use crate::item::Item;
use arrayvec::ArrayVec;
use nb_key::Key;
use nb_record::CellView;

/// The most items of a walk: 7 for each of the 21 levels below the root's, and one.
pub(crate) const MOST_ITEMS: usize = 148;

/// What a walk has left, the next item last.
pub(crate) type Items = ArrayVec<Item, MOST_ITEMS>;

/// Puts the octants of a cell in its place, the first last.
fn push_kids(items: &mut Items, key: Key, kids: u8)
    requires key { IsKey key }
    requires level { level_of key < 21 }
    requires room { HasRoom items.old.items }
    requires depth { length items.old.items ≤ 7 * level_of key }
    ensures items { items.new.items ≡ items.old.items ++ kid_items key kids octants }
    ensures room { HasRoom items.new.items }
{
    for i in 0..8u8 {
        let octant = 7 - i;
        if (kids >> octant) % 2 == 1 {
            items.push(Item::Cell(key.child(octant), 0));
        }
    }
}

/// Puts what an opened cell has in its place: the bodies of a leaf, or the octants of any other.
pub(crate) fn open(items: &mut Items, cell: &CellView<'_>)
    requires room { HasRoom items.old.items }
    requires depth { length items.old.items ≤ 7 * level_of cell.now.key }
    requires form { IsCell cell.now }
    ensures items { items.new.items ≡ items.old.items ++ opened_items cell.now }
    ensures room { HasRoom items.new.items }
{
    let kids = cell.kids();
    if kids == 0 {
        items.push(Item::Bodies(cell.first(), cell.count()));
        return;
    }
    push_kids(items, cell.key(), kids);
}
