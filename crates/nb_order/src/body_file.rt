//! Bodies in a file of pages, through the cache.

ghost use Rattle.std.specs.Prelude.{◌≡◌, ◌≢◌, ◌↔◌, ℕ, ◌/◌, ◌%◌, ◌<◌, ◌≤◌};
ghost use Rattle.std.specs.Prelude.{List, [], ◌∷◌, Contains, length, slice_get};
ghost use Rattle.std.specs.Prelude.{IsTrue, IfSome, IfNone, IfOk, OnOk, OnErr, Err, Some};
ghost use Rattle.nb_host.specs.Page.{page_of};
ghost use Rattle.nb_host.specs.declared.page_name.PageName.{PageName as PageNames};
ghost use Rattle.nb_model.specs.declared.body.V3.{V3 as Vectors};
ghost use Rattle.nb_model.specs.declared.body.Body.{Body as Bodies};
ghost use Rattle.nb_model.specs.Limits.{kick_limit, most_bodies};
ghost use Rattle.nb_model.specs.Valid.{IsBelow, IsValidBody};
ghost use Rattle.nb_cache.specs.InStep.{IsCachedFile, IsCacheable, IsInStep};
ghost use Rattle.nb_cache.specs.View.{names_of, seen, Seen, Same, IsWhole};
ghost use Rattle.nb_cache.specs.Writes.{RanCached};
ghost use Rattle.nb_record.specs.Order.{record_of, HoldsBodies, HoldsKickedBodies};
ghost use Rattle.nb_record.specs.Pages.{record_count, IsBodyPage};
ghost use Rattle.nb_record.specs.Records.{body_of, body_record, kick_of, IsBodyRecord};
ghost use Rattle.nb_record.specs.Writing.{IsZeroPadded};
ghost use Rattle.nb_order.specs.Files.{page_of_body, HasBody, HasRoomFor, IsBodyAt, HasPushed};
ghost use Rattle.nb_order.specs.Refusals.{IsNoBody, HasNoRoom};

use crate::order_error::OrderError;
use nb_cache::Cache;
use nb_host::{Host, PAGE_SIZE, PageName};
use nb_model::{Body, V3};
use nb_record::{BODIES_PER_PAGE, BODY_SIZE, BodyPage, add_body, begin_body_page};

/// A body and its half kick.
#[derive(Clone, Copy, PartialEq, Eq, Debug)]
pub struct KickedBody {
    /// The body.
    pub body: Body,
    /// The half kick, in box units a tick.
    pub kick: V3,
}

/// The page of a file on which the body of this number stands, counted from 0.
pub fn page_name(file: u64, index: u64) -> PageName
    ensures value { result ≡ page_of_body file index }
    ensures cacheable { IsCachedFile file → index ≤ most_bodies → IsCacheable result }
{
    PageName {
        file,
        page: index / BODIES_PER_PAGE,
    }
}

/// The body of this number in a file of bodies, counted from 0.
pub fn body_at<H: Host>(
    host: &mut H,
    cache: &mut Cache,
    file: u64,
    index: u64,
) -> Result<Body, OrderError>
    requires file { IsCachedFile file }
    requires index { index ≤ most_bodies }
    requires in_step { IsInStep H.meaning cache.old host.old }
    ensures valid { IfOk result (λ body. IsValidBody body) }
    ensures read { IfOk result (λ body. IsTrue H.meaning.tells
        → HasBody (seen H.meaning cache.old host.old file) index
        × (body ≡ body_of (record_of (seen H.meaning cache.old host.old file) index))) }
    ensures listed { IsTrue H.meaning.tells → (bodies : List Bodies)
        → HoldsBodies (seen H.meaning cache.old host.old file) bodies
        → IfOk result (λ body. slice_get bodies index ≡ Some body) }
    ensures damaged { (name : PageNames) → result ≡ Err (OrderError.Damaged name)
        → IsNoBody H.meaning cache.old host.old file index name }
    ensures ran { RanCached H.meaning OrderError.Fault [] cache.old host.old cache.new host.new result }
{
    let found = kicked_at(host, cache, file, index)?;
    Ok(found.body)
}

/// The kick of the body of this number in a file of bodies, counted from 0, in box units a tick.
pub fn kick_at<H: Host>(
    host: &mut H,
    cache: &mut Cache,
    file: u64,
    index: u64,
) -> Result<V3, OrderError>
    requires file { IsCachedFile file }
    requires index { index ≤ most_bodies }
    requires in_step { IsInStep H.meaning cache.old host.old }
    ensures range { IfOk result (λ kick. IsBelow kick_limit kick) }
    ensures read { IfOk result (λ kick. IsTrue H.meaning.tells
        → HasBody (seen H.meaning cache.old host.old file) index
        × (kick ≡ kick_of (record_of (seen H.meaning cache.old host.old file) index))) }
    ensures listed { IsTrue H.meaning.tells
        → (kick_for : Bodies → Vectors) (bodies : List Bodies) (body : Bodies)
        → HoldsKickedBodies (seen H.meaning cache.old host.old file) kick_for bodies
        → slice_get bodies index ≡ Some body → IfOk result (λ kick. kick ≡ kick_for body) }
    ensures damaged { (name : PageNames) → result ≡ Err (OrderError.Damaged name)
        → IsNoBody H.meaning cache.old host.old file index name }
    ensures ran { RanCached H.meaning OrderError.Fault [] cache.old host.old cache.new host.new result }
{
    let found = kicked_at(host, cache, file, index)?;
    Ok(found.kick)
}

/// The body of this number in a file of bodies, counted from 0, with its kick.
pub fn kicked_at<H: Host>(
    host: &mut H,
    cache: &mut Cache,
    file: u64,
    index: u64,
) -> Result<KickedBody, OrderError>
    requires file { IsCachedFile file }
    requires index { index ≤ most_bodies }
    requires in_step { IsInStep H.meaning cache.old host.old }
    ensures valid { IfOk result (λ found. IsValidBody found.body) }
    ensures range { IfOk result (λ found. IsBelow kick_limit found.kick) }
    ensures read { IfOk result (λ found. IsTrue H.meaning.tells
        → IsBodyAt (seen H.meaning cache.old host.old file) index found.body found.kick) }
    ensures damaged { (name : PageNames) → result ≡ Err (OrderError.Damaged name)
        → IsNoBody H.meaning cache.old host.old file index name }
    ensures ran { RanCached H.meaning OrderError.Fault [] cache.old host.old cache.new host.new result }
{
    let name = page_name(file, index);
    fetch_page(host, cache, name)?;
    let bytes = cache.lent(name).unwrap();
    match read_record(bytes, name.page, index % BODIES_PER_PAGE) {
        Some(found) => Ok(found),
        None => Err(OrderError::Damaged(name)),
    }
}

/// Makes a page of a file resident. It is damaged where it isn't whole in the file.
fn fetch_page<H: Host>(host: &mut H, cache: &mut Cache, name: PageName) -> Result<(), OrderError>
    requires name { IsCacheable name }
    requires in_step { IsInStep H.meaning cache.old host.old }
    ensures resident { OnOk result (Contains (names_of cache.new) name) }
    ensures whole { OnOk result (IsTrue H.meaning.tells
        → IsWhole cache.old (H.meaning.contents host.old) name) }
    ensures named { (other : PageNames) → result ≡ Err (OrderError.Damaged other) → other ≡ name }
    ensures short { (other : PageNames) → result ≡ Err (OrderError.Damaged other) → IsTrue H.meaning.tells
        → ¬ IsWhole cache.old (H.meaning.contents host.old) name }
    ensures ran { RanCached H.meaning OrderError.Fault [] cache.old host.old cache.new host.new result }
{
    let _ = cache.pages();
    cache.fetch(host, &[name])?;
    Ok(())
}

/// The body and the kick of a record of a page, where the page and the record are of the form.
fn read_record(bytes: &[u8], page: u64, index: u64) -> Option<KickedBody>
    requires { length bytes.now ≡ PAGE_SIZE }
    ensures form { IfSome result (λ _. IsBodyPage page bytes.now) }
    ensures within { IfSome result (λ _. index < record_count bytes.now) }
    ensures valid { IfSome result (λ _. IsBodyRecord (body_record index bytes.now)) }
    ensures body { IfSome result (λ found. found.body ≡ body_of (body_record index bytes.now)) }
    ensures kick { IfSome result (λ found. found.kick ≡ kick_of (body_record index bytes.now)) }
    ensures none { IfNone result (IsBodyPage page bytes.now → index < record_count bytes.now
        → ¬ IsBodyRecord (body_record index bytes.now)) }
{
    let Ok(bodies) = BodyPage::check(bytes, page) else {
        return None;
    };
    if index >= bodies.count() {
        return None;
    }
    match bodies.body(index) {
        Some(body) => Some(KickedBody {
            body,
            kick: bodies.kick(index),
        }),
        None => None,
    }
}

/// Adds a body with its kick, in box units a tick, behind the others of a file of bodies. It gets this
/// number, counted from 0, which is how many bodies the file has. After Fault its page may hold anything.
pub fn push_body<H: Host>(
    host: &mut H,
    cache: &mut Cache,
    file: u64,
    index: u64,
    body: &Body,
    kick: &V3,
) -> Result<(), OrderError>
    requires file { IsCachedFile file }
    requires index { index ≤ most_bodies }
    requires valid { IsValidBody body.now }
    requires kick { IsBelow kick_limit kick.now }
    requires in_step { IsInStep H.meaning cache.old host.old }
    ensures pushed { OnOk result (Seen H.meaning file (HasPushed index body.now kick.now)
        cache.old host.old cache.new host.new) }
    ensures damaged { (name : PageNames) → result ≡ Err (OrderError.Damaged name)
        → HasNoRoom H.meaning cache.old host.old file index name }
    ensures stays { OnErr result (result ≢ Err OrderError.Fault → (other : ℕ)
        → Seen H.meaning other Same cache.old host.old cache.new host.new) }
    ensures ran { RanCached H.meaning OrderError.Fault (file ∷ []) cache.old host.old
        cache.new host.new result }
{
    let name = page_name(file, index);
    let mut bytes = [0; PAGE_SIZE];
    open_page(host, cache, file, index, &mut bytes)?;
    add_body(&mut bytes, body, kick);
    cache.put(host, name, &bytes)?;
    Ok(())
}

/// The page to which the body of this number is to be added: a new one where the body is the page's first,
/// and else the file's, where it is whole, of the form, and has as many bodies as come before.
fn open_page<H: Host>(
    host: &mut H,
    cache: &mut Cache,
    file: u64,
    index: u64,
    into: &mut [u8],
) -> Result<(), OrderError>
    requires file { IsCachedFile file }
    requires index { index ≤ most_bodies }
    requires in_step { IsInStep H.meaning cache.old host.old }
    requires size { length into.old ≡ PAGE_SIZE }
    ensures size { length into.new ≡ PAGE_SIZE }
    ensures form { OnOk result (IsBodyPage (index / BODIES_PER_PAGE) into.new) }
    ensures count { OnOk result (record_count into.new ≡ index % BODIES_PER_PAGE) }
    ensures fresh { OnOk result (index % BODIES_PER_PAGE ≡ 0 → IsZeroPadded BODY_SIZE into.new) }
    ensures read { OnOk result (IsTrue H.meaning.tells → index % BODIES_PER_PAGE ≢ 0
        → into.new ≡ page_of (seen H.meaning cache.old host.old file) (index / BODIES_PER_PAGE)) }
    ensures damaged { (name : PageNames) → result ≡ Err (OrderError.Damaged name)
        → HasNoRoom H.meaning cache.old host.old file index name }
    ensures ran { RanCached H.meaning OrderError.Fault [] cache.old host.old cache.new host.new result }
{
    let name = page_name(file, index);
    let count = index % BODIES_PER_PAGE;
    if count == 0 {
        begin_body_page(into, name.page);
        return Ok(());
    }
    fetch_page(host, cache, name)?;
    let bytes = cache.lent(name).unwrap();
    if !has_bodies(bytes, name.page, count) {
        return Err(OrderError::Damaged(name));
    }
    into.copy_from_slice(bytes);
    Ok(())
}

/// Whether a page is of the form and has so many bodies.
fn has_bodies(bytes: &[u8], page: u64, count: u64) -> bool
    requires { length bytes.now ≡ PAGE_SIZE }
    ensures { IsTrue result ↔ (IsBodyPage page bytes.now × (record_count bytes.now ≡ count)) }
{
    match BodyPage::check(bytes, page) {
        Ok(bodies) => bodies.count() == count,
        Err(_) => false,
    }
}

#[cfg(test)]
mod tests;
