//! The bodies of a file in Morton order, read one ahead.

ghost use Rattle.std.specs.Prelude.{◌≡◌, ◌⊎◌, ◌↔◌, ◌+◌, ◌-◌, ◌*◌, ◌<◌, ◌≤◌, false, List, []};
ghost use Rattle.std.specs.Prelude.{IsTrue, IsSome, IfSome, IfNone, IfOk, OnOk, Err};
ghost use Rattle.nb_host.specs.declared.page_name.PageName.{PageName as PageNames};
ghost use Rattle.nb_model.specs.declared.body.Body.{Body as Bodies};
ghost use Rattle.nb_model.specs.Limits.{most_bodies};
ghost use Rattle.nb_key.specs.Morton.{IsKeyAt};
ghost use Rattle.nb_cache.specs.InStep.{IsCachedFile, IsInStep};
ghost use Rattle.nb_cache.specs.View.{seen};
ghost use Rattle.nb_cache.specs.Writes.{RanCached};
ghost use Rattle.nb_record.specs.Order.{record_of};
ghost use Rattle.nb_record.specs.Records.{body_of};
ghost use Rattle.nb_order.specs.Files.{page_of_body, HasBody};
ghost use Rattle.nb_tree.specs.Fronts.{IsFront};
ghost use Rattle.nb_tree.specs.Refusals.{IsMisplaced};
ghost use Rattle.nb_tree.specs.Passes.{IsAhead, IsReader, Follows, inside_of};
ghost use Rattle.nb_tree.specs.Passes.{LiesIn, IsAt, IsHeld, Reads};

use crate::tree_error::TreeError;
use nb_cache::Cache;
use nb_host::Host;
use nb_key::Key;
use nb_model::Body;
use nb_order::{body_at, page_name};

/// The bits of a key that an octant takes.
const OCTANT_BITS: u32 = 3;

/// A cell has so many octants.
const OCTANTS: u64 = 8;

/// A body that was read and not yet taken, and the key of the deepest cell that holds it.
#[derive(Clone, Copy, PartialEq, Eq, Debug)]
pub(crate) struct Ahead {
    pub(crate) body: Body,
    pub(crate) key: Key,
}

/// The unescaped bodies of a file that has so many bodies in Morton order, with the next one read ahead.
/// There is none behind the last unescaped body.
#[derive(Clone, Copy, PartialEq, Eq, Debug)]
pub(crate) struct Reader {
    pub(crate) file: u64,
    pub(crate) count: u64,
    /// How many bodies were taken.
    pub(crate) taken: u64,
    pub(crate) ahead: Option<Ahead>,
}

impl Reader {
    /// Reads the first body ahead.
    pub(crate) fn begin<H: Host>(
        host: &mut H,
        cache: &mut Cache,
        file: u64,
        count: u64,
    ) -> Result<Reader, TreeError>
        requires file { IsCachedFile file }
        requires count { count ≤ most_bodies }
        requires in_step { IsInStep H.meaning cache.old host.old }
        ensures reader { IfOk result IsReader }
        ensures fields { IfOk result (λ r. (r.file ≡ file) × (r.count ≡ count) × (r.taken ≡ 0)) }
        ensures at { IfOk result (λ r. IsTrue H.meaning.tells → (front : List Bodies)
            → IsFront (seen H.meaning cache.old host.old file) count front → IsAt front r) }
        ensures held { IfOk result (λ r. IsTrue H.meaning.tells
            → IsHeld (seen H.meaning cache.old host.old file) r) }
        ensures named { (name : PageNames) → result ≡ Err (TreeError.Damaged name) → name.file ≡ file }
        ensures damaged { (name : PageNames) → result ≡ Err (TreeError.Damaged name) → IsTrue H.meaning.tells
            → IsMisplaced file count (seen H.meaning cache.old host.old file) name }
        ensures ran { RanCached H.meaning TreeError.Fault [] cache.old host.old cache.new host.new result }
    {
        let next = read(host, cache, file, count, 0)?;
        Ok(Reader {
            file,
            count,
            taken: 0,
            ahead: inside(next),
        })
    }

    /// Takes the body ahead, and reads the next one, which has to follow it.
    pub(crate) fn take<H: Host>(
        &mut self,
        host: &mut H,
        cache: &mut Cache,
    ) -> Result<Body, TreeError>
        requires reader { IsReader self.old }
        requires ahead { IsSome self.old.ahead }
        requires in_step { IsInStep H.meaning cache.old host.old }
        ensures reader { IsReader self.new }
        ensures reads { OnOk result (Reads self.old self.new 1) }
        ensures body { IfOk result (λ body. IfSome self.old.ahead (λ ahead. body ≡ ahead.body)) }
        ensures at { OnOk result (IsTrue H.meaning.tells → (front : List Bodies)
            → IsFront (seen H.meaning cache.old host.old self.old.file) self.old.count front
            → IsAt front self.old → IsAt front self.new) }
        ensures held { OnOk result (IsTrue H.meaning.tells
            → IsHeld (seen H.meaning cache.old host.old self.old.file) self.old
            → IsHeld (seen H.meaning cache.old host.old self.old.file) self.new) }
        ensures named { (name : PageNames) → result ≡ Err (TreeError.Damaged name)
            → name.file ≡ self.old.file }
        ensures damaged { (name : PageNames) → result ≡ Err (TreeError.Damaged name) → IsTrue H.meaning.tells
            → IsHeld (seen H.meaning cache.old host.old self.old.file) self.old
            → IsMisplaced self.old.file self.old.count (seen H.meaning cache.old host.old self.old.file) name }
        ensures ran { RanCached H.meaning TreeError.Fault [] cache.old host.old cache.new host.new result }
    {
        let Some(ahead) = self.ahead else {
            unreachable!()
        };
        let taken = self.taken + 1;
        let next = read(host, cache, self.file, self.count, taken)?;
        if !follows(&ahead, &next) {
            return Err(TreeError::Damaged(page_name(self.file, taken)));
        }
        self.taken = taken;
        self.ahead = inside(next);
        Ok(ahead.body)
    }

    /// Whether the body ahead lies in a cell at the deepest level.
    pub(crate) fn lies_in(&self, key: Key) -> bool
        requires reader { IsReader self.now }
        ensures { IsTrue result ↔ LiesIn 21 key self.now }
    {
        match self.ahead {
            Some(ahead) => ahead.key == key,
            None => false,
        }
    }

    /// The octant in which the body ahead lies, where it lies in this cell. The octants of the cell have so
    /// many levels below them.
    pub(crate) fn octant_in(&self, key: Key, depth: u32) -> Option<u8>
        requires reader { IsReader self.now }
        requires depth { depth ≤ 20 }
        requires key { IsKeyAt (20 - depth) key }
        ensures range { IfSome result (λ octant. octant < 8) }
        ensures some { IfSome result (λ octant. LiesIn (21 - depth) (8 * key + octant) self.now) }
        ensures none { IfNone result (LiesIn (20 - depth) key self.now → ⊥) }
    {
        let Some(ahead) = self.ahead else {
            return None;
        };
        let child = ahead.key.number() >> (OCTANT_BITS * depth);
        if child >> OCTANT_BITS != key.number() {
            return None;
        }
        Some((child % OCTANTS) as u8)
    }
}

/// The body of this number, where the file has so many, with the key of its deepest cell.
fn read<H: Host>(
    host: &mut H,
    cache: &mut Cache,
    file: u64,
    count: u64,
    index: u64,
) -> Result<Option<Ahead>, TreeError>
    requires file { IsCachedFile file }
    requires count { count ≤ most_bodies }
    requires in_step { IsInStep H.meaning cache.old host.old }
    ensures none { IfOk result (λ next. IfNone next (count ≤ index)) }
    ensures some { IfOk result (λ next. IfSome next (λ _. index < count)) }
    ensures ahead { IfOk result (λ next. IfSome next IsAhead) }
    ensures has { IfOk result (λ next. IfSome next (λ _. IsTrue H.meaning.tells
        → HasBody (seen H.meaning cache.old host.old file) index)) }
    ensures body { IfOk result (λ next. IfSome next (λ ahead. IsTrue H.meaning.tells
        → ahead.body ≡ body_of (record_of (seen H.meaning cache.old host.old file) index))) }
    ensures named { (name : PageNames) → result ≡ Err (TreeError.Damaged name)
        → name ≡ page_of_body file index }
    ensures below { (name : PageNames) → result ≡ Err (TreeError.Damaged name) → index < count }
    ensures damaged { (name : PageNames) → result ≡ Err (TreeError.Damaged name) → IsTrue H.meaning.tells
        → HasBody (seen H.meaning cache.old host.old file) index → ⊥ }
    ensures ran { RanCached H.meaning TreeError.Fault [] cache.old host.old cache.new host.new result }
{
    if index >= count {
        return Ok(None);
    }
    let body = body_at(host, cache, file, index)?;
    let key = Key::of(body.at.x, body.at.y, body.at.z);
    Ok(Some(Ahead { body, key }))
}

/// Whether an unescaped body precedes the next one, if there is one.
fn follows(ahead: &Ahead, next: &Option<Ahead>) -> bool
    requires ahead { IsAhead ahead.now }
    requires inside { ahead.now.body.out ≡ false }
    requires next { IfSome next.now IsAhead }
    ensures { IsTrue result ↔ Follows ahead.now.body next.now }
{
    let Some(next) = next else {
        return true;
    };
    if next.body.out {
        return true;
    }
    is_before((ahead.key, ahead.body.id), (next.key, next.body.id))
}

/// Whether a key and an id come before others: by key, and by id where the keys are one.
fn is_before(one: (Key, u64), other: (Key, u64)) -> bool
    ensures { IsTrue result ↔ ((one.0 < other.0) ⊎ ((one.0 ≡ other.0) × (one.1 < other.1))) }
{
    if one.0 == other.0 {
        return one.1 < other.1;
    }
    one.0 < other.0
}

/// The body, where it is in the box.
fn inside(next: Option<Ahead>) -> Option<Ahead>
    ensures { result ≡ inside_of next }
{
    match next {
        Some(ahead) if !ahead.body.out => Some(ahead),
        _ => None,
    }
}
