//! The cache of pages.

ghost use Rattle.std.specs.Prelude.{◌≡◌, ◌≢◌, ℕ, ◌^◌, ◌≤◌, ◌↔◌, ◌⊎◌, ◌-◌, false, List, [], ◌∷◌, take, Some, None, IsTrue, option_map, IsSome, IfSome, IfOk, OnOk, OnErr, Err, Contains, length};
ghost use Rattle.std.specs.List.{AllByRecursion};
ghost use Rattle.nb_host.specs.Crashes.{Stays};
ghost use Rattle.nb_host.specs.Image.{Image, IsOverwritten, IsTorn, IsPartlyCut};
ghost use Rattle.nb_host.specs.Meaning.{Ran};
ghost use Rattle.nb_host.specs.Page.{IsRising, page_of, page_start};
ghost use Rattle.nb_host.specs.declared.page_name.PageName.{PageName as PageNames};
ghost use Rattle.nb_cache.specs.Names.{used, without_file, held_without, with_clean, SparesDirty};
ghost use Rattle.nb_cache.specs.InStep.{IsCachedFile, IsCacheable, IsInStep, IsCoherent};
ghost use Rattle.nb_cache.specs.Sound.{AreResident};
ghost use Rattle.nb_cache.specs.View.{names_of, resident_bytes, view_of, seen, Seen, Same, IsWhole, IsFirstShort};
ghost use Rattle.nb_cache.specs.Writes.{RanCached};

use crate::cache_error::CacheError;
use crate::frames::Frames;
use crate::load::load;
use crate::marks::Marks;
use nb_host::{Host, HostError, PAGE_SIZE, PageName};
use nb_model::NoMemory;
use std::alloc::Global;
use std::marker::Model;

/// A bounded cache of pages that lends their bytes. It writes late: a page that was put is dirty in its frame
/// until it leaves the cache or its file is flushed.
#[derive(Drop)]
pub struct Cache {
    frames: Frames,
    /// The files that were put into since they were last flushed or emptied.
    unwritten: Marks,
}

impl Model for Cache {
    ghost use Rattle.std.specs.Prelude.{◌+◌, ◌^◌, ◌≤◌};
    ghost use Rattle.nb_cache.specs.Stock.{HasFrames};
    ghost use Rattle.nb_cache.specs.View.{CacheValue};

    ghost Value = { CacheValue };

    ghost view = { λ c. record {
      pages = c.frames.pages;
      held = c.frames.held;
      unwritten = c.unwritten;
    } };

    ghost invariant = { λ c. HasFrames (c.frames.pages + 1) c.frames
        × (4 ≤ c.frames.pages) × (c.frames.pages ≤ 2 ^ 18) };
}

impl Cache {
    /// A cache of so many pages, of which none is resident. It takes all frames at once.
    pub fn new(alloc: Global, pages: usize) -> Result<Cache, NoMemory>
        requires least { 4 ≤ pages }
        requires most { pages ≤ 2 ^ 18 }
        ensures value { IfOk result (λ c. c ≡ record { pages = pages; held = []; unwritten = [] }) }
        ensures fits { IfOk result (λ c. (image : Image) → IsCoherent c image) }
    {
        let frames = Frames::new(alloc, pages)?;
        Ok(Cache {
            frames,
            unwritten: Marks::new(),
        })
    }

    /// How many pages the cache has. It also says of every page at once what `lent` says of one: which are
    /// shown, and that what is shown is the view's page.
    pub fn pages(&self) -> usize
        ensures value { result ≡ self.now.pages }
        ensures least { 4 ≤ result }
        ensures most { result ≤ 2 ^ 18 }
        ensures shown { (image : Image) (name : PageNames) (bytes : List ℕ) → IsCoherent self.now image
            → resident_bytes self.now.held name ≡ Some bytes
            → (bytes ≡ page_of (view_of self.now image name.file) name.page) × (length bytes ≡ PAGE_SIZE) }
        ensures resident { (name : PageNames) → (Contains (names_of self.now) name
            ↔ (resident_bytes self.now.held name ≢ None)) }
    {
        let _ = self.len();
        self.frames.pages()
    }

    /// How many pages are resident. A call begins with it, since it tells the proof what holds of a cache.
    fn len(&self) -> usize
        ensures count { result ≡ length (names_of self.now) }
        ensures sound { AreResident self.now.pages self.now.held }
    {
        self.frames.len()
    }

    /// The bytes of a page as the view has them, or None where it isn't resident.
    pub fn lent(&self, name: PageName) -> Option<&[u8]>
        ensures resident { IsSome result ↔ Contains (names_of self.now) name }
        ensures shown { option_map (λ bytes. bytes.now) result ≡ resident_bytes self.now.held name }
        ensures whole { IfSome result (λ bytes. length bytes.now ≡ PAGE_SIZE) }
        ensures view { (image : Image) → IsCoherent self.now image → IfSome result (λ bytes.
            bytes.now ≡ page_of (view_of self.now image name.file) name.page) }
    {
        self.frames.lent(name)
    }

    /// Makes the pages resident, the last of them the most recently used, or tells the first whose file ends
    /// before it does. After a refusal it is left open which pages are resident. The view stays.
    pub fn fetch<H: Host>(&mut self, host: &mut H, names: &[PageName]) -> Result<(), CacheError>
        requires rising { IsRising names.now }
        requires room { length names.now ≤ self.old.pages }
        requires names { AllByRecursion IsCacheable names.now }
        requires in_step { IsInStep H.meaning self.old host.old }
        ensures resident { OnOk result (names_of self.new
            ≡ used self.old.pages names.now (names_of self.old)) }
        ensures unwritten { self.new.unwritten ≡ self.old.unwritten }
        ensures whole { OnOk result (IsTrue H.meaning.tells
            → AllByRecursion (IsWhole self.old (H.meaning.contents host.old)) names.now) }
        ensures short { (name : PageNames) → result ≡ Err (CacheError.Short name) → IsTrue H.meaning.tells
            → IsFirstShort self.old (H.meaning.contents host.old) names.now name }
        ensures named { (name : PageNames) → result ≡ Err (CacheError.Short name) → Contains names.now name }
        ensures bound { length (names_of self.new) ≤ self.new.pages }
        ensures ran { RanCached H.meaning CacheError.Fault [] self.old host.old self.new host.new result }
    {
        let _ = self.len();
        for &name in names {
            self.bring(host, name)?;
        }
        Ok(())
    }

    /// Makes these bytes the page's, in its frame: they are written when the page leaves or is flushed. A page
    /// past the end of its file by a gap is written at once. After Fault the page may hold anything, and so may
    /// a gap before it.
    pub fn put<H: Host>(
        &mut self,
        host: &mut H,
        name: PageName,
        bytes: &[u8],
    ) -> Result<(), CacheError>
        requires name { IsCacheable name }
        requires page { length bytes.now ≡ PAGE_SIZE }
        requires in_step { IsInStep H.meaning self.old host.old }
        ensures resident { OnOk result (names_of self.new
            ≡ used self.old.pages (name ∷ []) (names_of self.old)) }
        ensures view { OnOk result (Seen H.meaning name.file (IsOverwritten (page_start name.page) bytes.now)
            self.old host.old self.new host.new) }
        ensures torn { Seen H.meaning name.file (IsTorn (page_start name.page) PAGE_SIZE)
            self.old host.old self.new host.new }
        ensures unwritten { (file : ℕ) → (Contains self.new.unwritten file
            ↔ ((file ≡ name.file) ⊎ Contains self.old.unwritten file)) }
        ensures no_memory { result ≡ Err CacheError.NoMemory → (file : ℕ)
            → Seen H.meaning file Same self.old host.old self.new host.new }
        ensures host_refusal { (other : PageNames) → result ≢ Err (CacheError.Short other) }
        ensures bound { length (names_of self.new) ≤ self.new.pages }
        ensures ran { RanCached H.meaning CacheError.Fault (name.file ∷ []) self.old host.old
            self.new host.new result }
    {
        let _ = self.len();
        self.unwritten.mark(name.file);
        let joins = self.joins(host, name)?;
        self.make_room(host, name)?;
        self.lay(host, name, bytes, joins)
    }

    /// Writes the dirty pages, by file and page, each once. After a refusal those that are
    /// left are still dirty.
    pub fn flush<H: Host>(&mut self, host: &mut H) -> Result<(), CacheError>
        requires { IsInStep H.meaning self.old host.old }
        ensures resident { names_of self.new ≡ names_of self.old }
        ensures written { OnOk result (IsTrue H.meaning.tells → (file : ℕ)
            → (H.meaning.contents host.new).file file ≡ seen H.meaning self.old host.old file) }
        ensures unwritten { OnOk result (self.new.unwritten ≡ []) }
        ensures waits { OnErr result (self.new.unwritten ≡ self.old.unwritten) }
        ensures host_refusal { (other : PageNames) → result ≢ Err (CacheError.Short other) }
        ensures bound { length (names_of self.new) ≤ self.new.pages }
        ensures ran { RanCached H.meaning CacheError.Fault [] self.old host.old self.new host.new result }
    {
        let _ = self.len();
        let names = self.frames.dirty_names()?;
        for &name in &names {
            self.settle(host, name)?;
        }
        self.unwritten.clear();
        Ok(())
    }

    /// Empties a file, in the view and on the host. None of its pages stays resident, and those that were dirty
    /// are never written. After Fault the file may have any length up to its old one, and hold anything.
    pub fn empty<H: Host>(&mut self, host: &mut H, file: u64) -> Result<(), CacheError>
        requires cached { IsCachedFile file }
        requires in_step { IsInStep H.meaning self.old host.old }
        ensures resident { OnOk result (names_of self.new ≡ without_file file (names_of self.old)) }
        ensures others { without_file file (names_of self.new) ≡ without_file file (names_of self.old) }
        ensures cleared { OnOk result (IsTrue H.meaning.tells → (H.meaning.contents host.new).file file ≡ []) }
        ensures view { OnOk result (IsTrue H.meaning.tells → seen H.meaning self.new host.new file ≡ []) }
        ensures partly { Seen H.meaning file (IsPartlyCut 0) self.old host.old self.new host.new }
        ensures no_memory { result ≡ Err CacheError.NoMemory → (other : ℕ)
            → Seen H.meaning other Same self.old host.old self.new host.new }
        ensures unwritten { OnOk result ((other : ℕ) → (Contains self.new.unwritten other
            ↔ (Contains self.old.unwritten other × (other ≢ file)))) }
        ensures waits { OnErr result (self.new.unwritten ≡ self.old.unwritten) }
        ensures host_refusal { (other : PageNames) → result ≢ Err (CacheError.Short other) }
        ensures bound { length (names_of self.new) ≤ self.new.pages }
        ensures ran { RanCached H.meaning CacheError.Fault (file ∷ []) self.old host.old
            self.new host.new result }
    {
        let _ = self.len();
        match host.cut(file, 0) {
            Ok(()) => {
                self.frames.forget_file(file);
                self.unwritten.unmark(file);
                Ok(())
            }
            Err(HostError::Fault) => {
                self.frames.forget_file(file);
                Err(CacheError::Fault)
            }
            Err(HostError::NoMemory) => Err(CacheError::NoMemory),
        }
    }

    /// Makes one page resident and the most recently used.
    fn bring<H: Host>(&mut self, host: &mut H, name: PageName) -> Result<(), CacheError>
        requires name { IsCacheable name }
        requires in_step { IsInStep H.meaning self.old host.old }
        ensures resident { OnOk result (names_of self.new
            ≡ used self.old.pages (name ∷ []) (names_of self.old)) }
        ensures whole { OnOk result (IsTrue H.meaning.tells
            → IsWhole self.old (H.meaning.contents host.old) name) }
        ensures short { (other : PageNames) → result ≡ Err (CacheError.Short other) → other ≡ name }
        ensures ends { (other : PageNames) → result ≡ Err (CacheError.Short other)
            → IsTrue H.meaning.tells → IsWhole self.old (H.meaning.contents host.old) name → ⊥ }
        ensures unwritten { self.new.unwritten ≡ self.old.unwritten }
        ensures sound { AreResident self.new.pages self.new.held }
        ensures ran { RanCached H.meaning CacheError.Fault [] self.old host.old self.new host.new result }
    {
        let _ = self.len();
        if self.frames.promote(name) {
            return Ok(());
        }
        self.make_room(host, name)?;
        self.read_in(host, name)
    }

    /// Reads a page in, for which there is room, as the most recently used.
    fn read_in<H: Host>(&mut self, host: &mut H, name: PageName) -> Result<(), CacheError>
        requires name { IsCacheable name }
        requires absent { Contains (names_of self.old) name → ⊥ }
        requires room { SparesDirty name self.old.pages self.old.held }
        requires in_step { IsInStep H.meaning self.old host.old }
        ensures resident { OnOk result (names_of self.new
            ≡ used self.old.pages (name ∷ []) (names_of self.old)) }
        ensures whole { OnOk result (IsTrue H.meaning.tells
            → IsWhole self.old (H.meaning.contents host.old) name) }
        ensures short { (other : PageNames) → result ≡ Err (CacheError.Short other) → other ≡ name }
        ensures ends { (other : PageNames) → result ≡ Err (CacheError.Short other)
            → IsTrue H.meaning.tells → IsWhole self.old (H.meaning.contents host.old) name → ⊥ }
        ensures unwritten { self.new.unwritten ≡ self.old.unwritten }
        ensures sound { AreResident self.new.pages self.new.held }
        ensures ran { RanCached H.meaning CacheError.Fault [] self.old host.old self.new host.new result }
    {
        let _ = self.len();
        let mut frame = self.frames.take();
        match load(host, name, &mut frame) {
            Ok(()) => {
                frame.mark(false);
                self.frames.place(name, frame)?;
                Ok(())
            }
            Err(error) => {
                self.frames.give(frame);
                let _ = self.frames.len();
                Err(error)
            }
        }
    }

    /// Whether a put of this page leaves no gap behind the end of its file. The host is asked only where neither
    /// the page nor the one before it is resident.
    fn joins<H: Host>(&self, host: &mut H, name: PageName) -> Result<bool, CacheError>
        requires name { IsCacheable name }
        requires in_step { IsInStep H.meaning self.now host.old }
        ensures joins { IfOk result (λ joins. IsTrue joins → IsTrue H.meaning.tells
            → page_start name.page ≤ length (seen H.meaning self.now host.old name.file)) }
        ensures absent { IfOk result (λ joins. joins ≡ false → Contains (names_of self.now) name → ⊥) }
        ensures host_refusal { (other : PageNames) → result ≢ Err (CacheError.Short other) }
        ensures ran { Ran H.meaning CacheError.Fault Stays host.old host.new result }
    {
        let _ = self.len();
        if name.page == 0 {
            return Ok(true);
        }
        if self.frames.lent(name).is_some() {
            return Ok(true);
        }
        let before = PageName {
            file: name.file,
            page: name.page - 1,
        };
        if self.frames.lent(before).is_some() {
            return Ok(true);
        }
        let len = host.len(name.file)?;
        Ok(name.page * PAGE_SIZE as u64 <= len)
    }

    /// Writes the page that has to leave for this one, where it is dirty.
    fn make_room<H: Host>(&mut self, host: &mut H, name: PageName) -> Result<(), CacheError>
        requires in_step { IsInStep H.meaning self.old host.old }
        ensures resident { names_of self.new ≡ names_of self.old }
        ensures room { OnOk result (SparesDirty name self.new.pages self.new.held) }
        ensures unwritten { self.new.unwritten ≡ self.old.unwritten }
        ensures sound { AreResident self.new.pages self.new.held }
        ensures host_refusal { (other : PageNames) → result ≢ Err (CacheError.Short other) }
        ensures ran { RanCached H.meaning CacheError.Fault [] self.old host.old self.new host.new result }
    {
        if self.len() < self.frames.pages() {
            return Ok(());
        }
        if self.frames.lent(name).is_some() {
            return Ok(());
        }
        let Some(last) = self.frames.last() else {
            return Ok(());
        };
        self.settle(host, last)?;
        Ok(())
    }

    /// Writes a page where it is dirty. Where that fails it is still dirty.
    fn settle<H: Host>(&mut self, host: &mut H, name: PageName) -> Result<(), CacheError>
        requires in_step { IsInStep H.meaning self.old host.old }
        ensures resident { names_of self.new ≡ names_of self.old }
        ensures settled { OnOk result (self.new.held ≡ with_clean name self.old.held) }
        ensures refusal { OnErr result (self.new.held ≡ self.old.held) }
        ensures unwritten { self.new.unwritten ≡ self.old.unwritten }
        ensures sound { AreResident self.new.pages self.new.held }
        ensures host_refusal { (other : PageNames) → result ≢ Err (CacheError.Short other) }
        ensures ran { RanCached H.meaning CacheError.Fault [] self.old host.old self.new host.new result }
    {
        let _ = self.len();
        let Some(bytes) = self.frames.dirty(name) else {
            return Ok(());
        };
        host.write_at(name.file, name.page * PAGE_SIZE as u64, bytes)?;
        self.frames.settle(name);
        let _ = self.frames.len();
        Ok(())
    }

    /// Puts a page for which there is room: late where it joins its file, and else at once.
    fn lay<H: Host>(
        &mut self,
        host: &mut H,
        name: PageName,
        bytes: &[u8],
        joins: bool,
    ) -> Result<(), CacheError>
        requires name { IsCacheable name }
        requires page { length bytes.now ≡ PAGE_SIZE }
        requires marked { Contains self.old.unwritten name.file }
        requires room { SparesDirty name self.old.pages self.old.held }
        requires joins { IsTrue joins → IsTrue H.meaning.tells
            → page_start name.page ≤ length (seen H.meaning self.old host.old name.file) }
        requires absent { joins ≡ false → Contains (names_of self.old) name → ⊥ }
        requires in_step { IsInStep H.meaning self.old host.old }
        ensures resident { OnOk result (names_of self.new
            ≡ used self.old.pages (name ∷ []) (names_of self.old)) }
        ensures view { OnOk result (Seen H.meaning name.file (IsOverwritten (page_start name.page) bytes.now)
            self.old host.old self.new host.new) }
        ensures torn { Seen H.meaning name.file (IsTorn (page_start name.page) PAGE_SIZE)
            self.old host.old self.new host.new }
        ensures no_memory { result ≡ Err CacheError.NoMemory → (file : ℕ)
            → Seen H.meaning file Same self.old host.old self.new host.new }
        ensures unwritten { self.new.unwritten ≡ self.old.unwritten }
        ensures sound { AreResident self.new.pages self.new.held }
        ensures host_refusal { (other : PageNames) → result ≢ Err (CacheError.Short other) }
        ensures ran { RanCached H.meaning CacheError.Fault (name.file ∷ []) self.old host.old
            self.new host.new result }
    {
        let _ = self.len();
        self.keep(name, bytes, joins)?;
        if joins {
            return Ok(());
        }
        match host.write_at(name.file, name.page * PAGE_SIZE as u64, bytes) {
            Ok(()) => Ok(()),
            Err(error) => {
                self.frames.forget(name);
                Err(error.into())
            }
        }
    }

    /// Puts a copy of the bytes of a page under its name, as the most recently used.
    fn keep(&mut self, name: PageName, bytes: &[u8], dirty: bool) -> Result<(), NoMemory>
        requires name { IsCacheable name }
        requires page { length bytes.now ≡ PAGE_SIZE }
        ensures resident { OnOk result (names_of self.new
            ≡ used self.old.pages (name ∷ []) (names_of self.old)) }
        ensures held { OnOk result (self.new.held
            ≡ record { name = name; bytes = bytes.now; dirty = dirty }
            ∷ take (self.old.pages - 1) (held_without name self.old.held)) }
        ensures refusal { OnErr result (self.new.held ≡ self.old.held) }
        ensures pages { self.new.pages ≡ self.old.pages }
        ensures unwritten { self.new.unwritten ≡ self.old.unwritten }
        ensures sound { AreResident self.new.pages self.new.held }
    {
        let mut frame = self.frames.take();
        frame.fill(bytes);
        frame.mark(dirty);
        self.frames.place(name, frame)?;
        Ok(())
    }
}

#[cfg(test)]
mod tests;
