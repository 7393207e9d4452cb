//! Laws of crashes, for every host, by which the crates above compose their calls, and the limits of a host's
//! calls. Each is a function that does nothing: its contract is the law.

ghost use Rattle.std.specs.Prelude.{◌≡◌, ◌⊎◌, ◌↔◌, ℕ, ◌+◌, ◌^◌, List, ◌++◌, Contains, IsTrue};
ghost use Rattle.nb_host.specs.Crashes.{IsStretch, ImagesFollow, ChangesOnly, EverySince, AgreesOutside, Stays};
ghost use Rattle.nb_host.specs.Image.{Image, SaysPart, KeepsFile};
ghost use Rattle.nb_host.specs.Meaning.{IsDurable, IsDurableFile, FileStays, Leads};
ghost use Rattle.nb_host.specs.declared.host.Channel.{Channel};

use crate::host::{Host, LAST_FILE, PLACE_LIMIT};
use crate::page_name::PAGE_SIZE;

/// A stretch of calls that changes only some files changes only more of them.
pub fn law_changes_more<H: Host>()
    ensures { (fewer more : List ℕ) (old new : H) → ((file : ℕ) → Contains fewer file → Contains more file)
        → ChangesOnly H.meaning.crashes fewer old new → ChangesOnly H.meaning.crashes more old new }
{}

/// Two stretches, one right after the other, change together only the files of both.
pub fn law_changes_both<H: Host>()
    ensures { (first second : List ℕ) (old middle new : H) → ChangesOnly H.meaning.crashes first old middle
        → ChangesOnly H.meaning.crashes second middle new
        → ChangesOnly H.meaning.crashes (first ++ second) old new }
{}

/// After a stretch that changes only some files, every image since its start agrees in every other file, and
/// in what was said, with an image at its start.
pub fn law_every_image<H: Host>()
    ensures { (files : List ℕ) (old new : H) → ChangesOnly H.meaning.crashes files old new
        → EverySince H.meaning.crashes (λ image. (start : Image) × H.meaning.crashes.may_leave old start
        × AgreesOutside files start image) old new }
{}

/// Two stretches, one right after the other: the images since the start of both are those of the first and
/// those of the second.
pub fn law_images_of_both<H: Host>()
    ensures { (old middle new : H) (image : Image) → IsStretch H.meaning.crashes old middle
        → IsStretch H.meaning.crashes middle new → IsTrue H.meaning.crashes.is_honest
        → (H.meaning.crashes.left_since new (H.meaning.crashes.moment old) image
        ↔ (H.meaning.crashes.left_since middle (H.meaning.crashes.moment old) image
        ⊎ H.meaning.crashes.left_since new (H.meaning.crashes.moment middle) image)) }
{}

/// What is durable in one file reads as before, and stays durable, through calls that change only others,
/// and through a say.
pub fn law_durable_file<H: Host>()
    ensures each { (file : ℕ) (host : H) → IsDurable H.meaning host
        → IsDurableFile H.meaning file host }
    ensures stays { (files : List ℕ) (file : ℕ) (old new : H) → (Contains files file → ⊥)
        → IsDurableFile H.meaning file old → ChangesOnly H.meaning.crashes files old new
        → IsDurableFile H.meaning file new }
    ensures holds { (files : List ℕ) (file : ℕ) (old new : H) → (Contains files file → ⊥)
        → IsDurableFile H.meaning file old → ChangesOnly H.meaning.crashes files old new
        → IsTrue H.meaning.crashes.is_honest
        → (H.meaning.contents new).file file ≡ (H.meaning.contents old).file file }
    ensures said { (channel : Channel) (bytes : List ℕ) (file : ℕ) (old new : H)
        → IsDurableFile H.meaning file old
        → ImagesFollow H.meaning.crashes old new (SaysPart channel bytes)
        → IsDurableFile H.meaning file new × (IsTrue H.meaning.crashes.is_honest
        → (H.meaning.contents new).file file ≡ (H.meaning.contents old).file file) }
{}

/// A file that is as its last call left it (`FileIs`, whatever that says) stays so through calls that spare
/// it: those on other files, a sync, and a say.
pub fn law_file_stays<H: Host>()
    ensures stays { (file : ℕ) (old new : H) → Leads H.meaning (KeepsFile file) old new
        → FileStays H.meaning file old new }
    ensures others { (files : List ℕ) (file : ℕ) (old new : H) → (Contains files file → ⊥)
        → Leads H.meaning (AgreesOutside files) old new → Leads H.meaning (KeepsFile file) old new }
    ensures synced { (file : ℕ) (old new : H) → Leads H.meaning Stays old new
        → Leads H.meaning (KeepsFile file) old new }
    ensures said { (channel : Channel) (bytes : List ℕ) (file : ℕ) (old new : H)
        → Leads H.meaning (SaysPart channel bytes) old new → Leads H.meaning (KeepsFile file) old new }
{}

/// What an honest host's files hold is one of the images that a crash may leave.
pub fn law_contents_are_left<H: Host>()
    ensures { (host : H) → IsTrue H.meaning.crashes.is_honest
        → H.meaning.crashes.may_leave host (H.meaning.contents host) }
{}

/// The greatest number of a file, what the end of a write or a read in a file is below, in bytes, and the length
/// of a page.
pub fn law_limits()
    ensures last_file { LAST_FILE ≡ 16 + 2 ^ 40 }
    ensures offset { PLACE_LIMIT ≡ 2 ^ 62 }
    ensures page { PAGE_SIZE ≡ 4096 }
{}
