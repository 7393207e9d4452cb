//! The frames of a cache, and which pages they hold.

ghost use Rattle.std.specs.Prelude.{◌≡◌, ◌≢◌, ℕ, List, Bool, ◌+◌, ◌-◌, ◌^◌, ◌<◌, ◌≤◌, ◌↔◌, vec_len, vec_capacity, true, false, [], ◌∷◌, take, IsTrue, option_map, IsSome, IfSome, IfOk, OnOk, OnErr, Contains, length, map, filter, slice_get};
ghost use Rattle.nb_host.specs.declared.page_name.PageName.{PageName as PageNames};
ghost use Rattle.nb_cache.specs.InStep.{IsCacheable};
ghost use Rattle.nb_cache.specs.Names.{used, without, without_file, held_without, with_clean, IsPromoted, IsWithoutFile};
ghost use Rattle.nb_cache.specs.Sound.{AreResident};
ghost use Rattle.nb_cache.specs.Stock.{HasFrames};
ghost use Rattle.nb_cache.specs.View.{Held, IsDirty, held_names, resident_bytes, overlaid};

use crate::frame::Frame;
use lru::LruCache;
use nb_host::{PAGE_SIZE, PageName};
use nb_model::NoMemory;
use std::alloc::{AllocError, Global};
use std::marker::Model;
use std::num::NonZeroUsize;

/// The frames of a cache: one for each page that it has, and one more, into which a page is read before
/// another leaves for it. They are taken once, and a page that leaves gives its frame to the spare ones.
#[derive(Drop)]
pub(crate) struct Frames {
    /// The resident pages, the most recently used first.
    resident: LruCache<PageName, Frame>,
    /// The frames that hold no page.
    spare: Vec<Frame>,
    alloc: Global,
}

impl Model for Frames {
    ghost use Rattle.std.specs.Prelude.{Contains, vec_len, vec_capacity};
    ghost use Rattle.nb_cache.specs.InStep.{IsCacheable};
    ghost use Rattle.nb_cache.specs.Stock.{Stock, held_of};
    ghost use Rattle.nb_cache.specs.View.{Held};

    ghost Value = { Stock };

    ghost view = { λ f. record {
      pages = f.resident.cap;
      held = held_of f.resident.entries;
      spare = vec_len f.spare;
      room = vec_capacity f.spare;
    } };

    ghost invariant = { λ f. (h : Held) → Contains (held_of f.resident.entries) h → IsCacheable h.name };
}

impl Frames {
    /// The frames of a cache of so many pages, all of them spare.
    pub(crate) fn new(alloc: Global, pages: usize) -> Result<Frames, NoMemory>
        requires some { 0 < pages }
        requires few { pages < 2 ^ 32 }
        ensures pages { IfOk result (λ f. f.pages ≡ pages) }
        ensures held { IfOk result (λ f. f.held ≡ []) }
        ensures frames { IfOk result (λ f. HasFrames (pages + 1) f) }
    {
        let capacity = NonZeroUsize::new(pages).unwrap();
        let resident = LruCache::new(alloc, capacity)?;
        let spare = spare_frames(alloc, pages + 1)?;
        Ok(Frames {
            resident,
            spare,
            alloc,
        })
    }

    /// How many pages may be resident.
    pub(crate) fn pages(&self) -> usize
        ensures { result ≡ self.now.pages }
    {
        self.resident.cap().get()
    }

    /// How many pages are resident. Like the map's `len`, it tells the proof what holds of them.
    pub(crate) fn len(&self) -> usize
        ensures count { result ≡ length (held_names self.now.held) }
        ensures sound { AreResident self.now.pages self.now.held }
    {
        self.resident.len()
    }

    /// The bytes of a resident page.
    pub(crate) fn lent(&self, name: PageName) -> Option<&[u8]>
        ensures resident { IsSome result ↔ Contains (held_names self.now.held) name }
        ensures held { IfSome result (λ bytes. (dirty : Bool) × Contains self.now.held
            (record { name = name; bytes = bytes.now; dirty = dirty })) }
        ensures shown { option_map (λ bytes. bytes.now) result ≡ resident_bytes self.now.held name }
        ensures whole { IfSome result (λ bytes. length bytes.now ≡ PAGE_SIZE) }
        ensures sound { AreResident self.now.pages self.now.held }
    {
        let _ = self.resident.len();
        match self.resident.peek(&name) {
            Some(frame) => Some(&frame.bytes),
            None => None,
        }
    }

    /// The bytes of a dirty page, or None where it is clean.
    pub(crate) fn dirty(&self, name: PageName) -> Option<&[u8]>
        ensures held { IfSome result (λ bytes. Contains self.now.held
            (record { name = name; bytes = bytes.now; dirty = true })) }
        ensures none { result ≡ None → IsDirty self.now.held name → ⊥ }
    {
        let _ = self.resident.len();
        match self.resident.peek(&name) {
            Some(frame) if frame.dirty => Some(&frame.bytes),
            _ => None,
        }
    }

    /// The names of the dirty pages, in their order.
    pub(crate) fn dirty_names(&self) -> Result<Vec<PageName>, NoMemory>
        ensures { IfOk result (λ names. (name : PageNames) → IsDirty self.now.held name
            → Contains names.items name) }
    {
        let mut names = dirty_names_of(self.alloc, &self.resident)?;
        names.sort_unstable();
        Ok(names)
    }

    /// A page is clean now.
    pub(crate) fn settle(&mut self, name: PageName)
        ensures held { self.new.held ≡ with_clean name self.old.held }
        ensures pages { self.new.pages ≡ self.old.pages }
        ensures frames { (n : ℕ) → HasFrames n self.old → HasFrames n self.new }
    {
        let _ = self.resident.len();
        let Some(frame) = self.resident.peek_mut(&name) else {
            return;
        };
        frame.dirty = false;
    }

    /// Makes a resident page the most recently used, and tells whether it is resident.
    pub(crate) fn promote(&mut self, name: PageName) -> bool
        ensures found { IsTrue result ↔ Contains (held_names self.old.held) name }
        ensures absent { result ≡ false → self.new ≡ self.old }
        ensures resident { IsTrue result → held_names self.new.held
            ≡ used self.old.pages (name ∷ []) (held_names self.old.held) }
        ensures moved { IsTrue result → IsPromoted name self.old.held self.new.held }
        ensures pages { self.new.pages ≡ self.old.pages }
        ensures frames { (n : ℕ) → HasFrames n self.old → HasFrames n self.new }
        ensures sound { AreResident self.new.pages self.new.held }
    {
        let _ = self.resident.len();
        let found = self.resident.promote(&name);
        let _ = self.resident.len();
        found
    }

    /// A spare frame. There is always one where none has been taken.
    pub(crate) fn take(&mut self) -> Frame
        requires { HasFrames (self.old.pages + 1) self.old }
        ensures held { self.new.held ≡ self.old.held }
        ensures pages { self.new.pages ≡ self.old.pages }
        ensures frames { HasFrames self.old.pages self.new }
    {
        let _ = self.resident.len();
        self.spare.pop().unwrap()
    }

    /// Puts the frame that was taken back among the spare ones.
    pub(crate) fn give(&mut self, frame: Frame)
        requires { HasFrames self.old.pages self.old }
        ensures held { self.new.held ≡ self.old.held }
        ensures pages { self.new.pages ≡ self.old.pages }
        ensures frames { HasFrames (self.old.pages + 1) self.new }
    {
        put_away(&mut self.spare, frame);
    }

    /// Puts the frame that was taken under a name, as the most recently used. The page that leaves gives its
    /// frame back.
    pub(crate) fn place(&mut self, name: PageName, frame: Frame) -> Result<(), NoMemory>
        requires name { IsCacheable name }
        requires frames { HasFrames self.old.pages self.old }
        ensures resident { OnOk result (held_names self.new.held
            ≡ used self.old.pages (name ∷ []) (held_names self.old.held)) }
        ensures held { OnOk result (self.new.held
            ≡ record { name = name; bytes = frame.bytes.items; dirty = frame.dirty }
            ∷ take (self.old.pages - 1) (held_without name self.old.held)) }
        ensures refusal { OnErr result (self.new.held ≡ self.old.held) }
        ensures pages { self.new.pages ≡ self.old.pages }
        ensures frames { HasFrames (self.old.pages + 1) self.new }
        ensures sound { AreResident self.new.pages self.new.held }
    {
        let _ = self.resident.len();
        match self.resident.push(name, frame) {
            Ok(displaced) => {
                let _ = self.resident.len();
                if let Some((_, frame)) = displaced {
                    put_away(&mut self.spare, frame);
                }
                Ok(())
            }
            Err(failed) => {
                let (_, frame) = failed.value;
                put_away(&mut self.spare, frame);
                Err(NoMemory)
            }
        }
    }

    /// Takes a page out.
    pub(crate) fn forget(&mut self, name: PageName)
        requires { HasFrames (self.old.pages + 1) self.old }
        ensures resident { held_names self.new.held ≡ without (name ∷ []) (held_names self.old.held) }
        ensures held { self.new.held ≡ held_without name self.old.held }
        ensures pages { self.new.pages ≡ self.old.pages }
        ensures frames { HasFrames (self.old.pages + 1) self.new }
        ensures sound { AreResident self.new.pages self.new.held }
    {
        let _ = self.resident.len();
        let gone = self.resident.pop(&name);
        let _ = self.resident.len();
        if let Some(frame) = gone {
            put_away(&mut self.spare, frame);
        }
    }

    /// Takes out the pages of a file. Each resident page is looked at once, the least recently used first,
    /// and one that stays goes to the front, so that those that stay are in their old order at the end.
    pub(crate) fn forget_file(&mut self, file: u64)
        requires { HasFrames (self.old.pages + 1) self.old }
        ensures resident { held_names self.new.held ≡ without_file file (held_names self.old.held) }
        ensures others { IsWithoutFile file self.old.held self.new.held }
        ensures pages { self.new.pages ≡ self.old.pages }
        ensures frames { HasFrames (self.old.pages + 1) self.new }
        ensures sound { AreResident self.new.pages self.new.held }
    {
        let resident = self.len();
        for _ in 0..resident {
            let Some(name) = self.last() else {
                return;
            };
            self.pass(file, name);
        }
    }

    /// Takes out a page of this file, or makes one of another file the most recently used.
    fn pass(&mut self, file: u64, name: PageName)
        requires frames { HasFrames (self.old.pages + 1) self.old }
        requires resident { Contains (held_names self.old.held) name }
        ensures gone { name.file ≡ file
            → held_names self.new.held ≡ without (name ∷ []) (held_names self.old.held) }
        ensures moved { name.file ≢ file
            → held_names self.new.held ≡ used self.old.pages (name ∷ []) (held_names self.old.held) }
        ensures others { IsWithoutFile file self.old.held self.new.held }
        ensures pages { self.new.pages ≡ self.old.pages }
        ensures frames { HasFrames (self.old.pages + 1) self.new }
        ensures sound { AreResident self.new.pages self.new.held }
    {
        let _ = self.len();
        if name.file == file {
            self.forget(name);
            return;
        }
        let _ = self.promote(name);
    }

    /// The name of the least recently used page.
    pub(crate) fn last(&self) -> Option<PageName>
        ensures { result ≡ slice_get (held_names self.now.held) (length (held_names self.now.held) - 1) }
    {
        match self.resident.peek_lru() {
            Some((name, _)) => Some(*name),
            None => None,
        }
    }
}

/// The names of the dirty pages, the most recently used first.
fn dirty_names_of(
    alloc: Global,
    resident: &LruCache<PageName, Frame>,
) -> Result<Vec<PageName>, AllocError>
    ensures { IfOk result (λ names. names.items
        ≡ map (λ e. e.0) (filter (λ e. e.1.dirty) resident.now.entries)) }
{
    resident
        .iter()
        .filter(|(_, frame)| frame.dirty)
        .map(|(name, _)| *name)
        .collect(alloc)
}

/// So many frames.
fn spare_frames(alloc: Global, count: usize) -> Result<Vec<Frame>, NoMemory>
    ensures count { IfOk result (λ frames. vec_len frames ≡ count) }
    ensures room { IfOk result (λ frames. count ≤ vec_capacity frames) }
{
    let mut frames = Vec::with_capacity(alloc, count)?;
    for _ in 0..count {
        frames.push(Frame::new(alloc)?)?;
    }
    Ok(frames)
}

/// Puts a frame among the spare ones, for which there is room.
fn put_away(spare: &mut Vec<Frame>, frame: Frame)
    requires { vec_len spare.old < vec_capacity spare.old }
    ensures count { vec_len spare.new ≡ vec_len spare.old + 1 }
    ensures room { vec_capacity spare.old ≤ vec_capacity spare.new }
{
    let _ = spare.push(frame);
}
