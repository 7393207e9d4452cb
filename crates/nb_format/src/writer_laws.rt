//! Laws of a snapshot that is being written or read, over every host: how the calls of its writer go
//! together, and what stays of its file between two calls. Each is a function that does nothing: its contract
//! is the law.

ghost use Rattle.std.specs.Prelude.{◌⊎◌, ℕ, List, [], ◌++◌, Contains, IsTrue};
ghost use Rattle.nb_host.specs.Crashes.{AgreesOutside, EverySince};
ghost use Rattle.nb_host.specs.Image.{FileBecomes, KeepsFile};
ghost use Rattle.nb_host.specs.Meaning.{IsDurableFile, Leads, Over};
ghost use Rattle.nb_model.specs.declared.body.Body.{Body};
ghost use Rattle.nb_format.specs.declared.snap_writer.Filling.{Filling};
ghost use Rattle.nb_format.specs.declared.snap_reader.SnapReader.{SnapReader};
ghost use Rattle.nb_format.specs.Reader.{file_of, IsReadableNow};
ghost use Rattle.nb_format.specs.Snapshot.{IsSnapshot, IsUnfinished};
ghost use Rattle.nb_format.specs.Writer.{SnapshotPlan, plan_of, IsEmptyFilling, IsBegun, StaysShut, StaysUnfinished, Closes};
ghost use Rattle.nb_format.specs.Images.{IsUnfinishedNow, IsShutNow, IsFilledNow, IsBeingWritten, ChangesWith, AddsEach, IsWritten};

use nb_host::Host;

/// A snapshot that is being written: what `begin` says begins it, an `add` for each body of a list goes on
/// with it, a refused `add` leaves the file unfinished, and after `close`, at Ok or not, the file is the
/// snapshot or unfinished.
pub fn law_being_written<H: Host>()
    ensures begun { (others : List ℕ) (plan : SnapshotPlan) (filling : Filling) (old new : H)
        → IsEmptyFilling plan filling → Over H.meaning (FileBecomes plan.file (IsBegun plan)) old new
        → IsShutNow H.meaning plan.file new
        → Leads H.meaning (FileBecomes plan.file StaysUnfinished) old new
        → IsBeingWritten H.meaning others plan filling [] old new }
    ensures added { (others : List ℕ) (plan : SnapshotPlan) (filling last : Filling) (bodies more : List Body)
        (start old new : H) → IsBeingWritten H.meaning others plan filling bodies start old
        → AddsEach H.meaning more filling last old new
        → IsBeingWritten H.meaning others plan last (bodies ++ more) start new }
    ensures refused { (others : List ℕ) (plan : SnapshotPlan) (filling : Filling) (bodies : List Body)
        (start old new : H) → IsBeingWritten H.meaning others plan filling bodies start old
        → Leads H.meaning (FileBecomes (plan_of filling).file StaysShut) old new
        → Leads H.meaning (ChangesWith others plan.file StaysUnfinished) start new }
    ensures closed { (others : List ℕ) (plan : SnapshotPlan) (filling : Filling) (bodies : List Body)
        (start old new : H) → IsBeingWritten H.meaning others plan filling bodies start old
        → Leads H.meaning (FileBecomes (plan_of filling).file
        (Closes filling ((H.meaning.contents old).file (plan_of filling).file))) old new
        → Leads H.meaning (ChangesWith others plan.file (IsWritten bodies plan.time)) start new }
{}

/// Where a file was unfinished in every image before its snapshot was begun, every image since is unfinished
/// in it or has the whole snapshot. A file that is durable and unfinished is so in every image.
pub fn law_written<H: Host>()
    ensures every { (others : List ℕ) (file time : ℕ) (bodies : List Body) (start now : H)
        → IsUnfinishedNow H.meaning file start
        → Leads H.meaning (ChangesWith others file (IsWritten bodies time)) start now
        → EverySince H.meaning.crashes
        (λ image. IsSnapshot (image.file file) bodies time ⊎ IsUnfinished (image.file file)) start now }
    ensures still { (others : List ℕ) (file : ℕ) (start now : H)
        → IsUnfinishedNow H.meaning file start
        → Leads H.meaning (ChangesWith others file StaysUnfinished) start now
        → EverySince H.meaning.crashes (λ image. IsUnfinished (image.file file)) start now }
    ensures durable { (file : ℕ) (host : H) → IsDurableFile H.meaning file host
        → (IsTrue H.meaning.tells → IsUnfinished ((H.meaning.contents host).file file))
        → IsUnfinishedNow H.meaning file host }
{}

/// What the writer's next call needs of its file, what `begin` does and what `add` and `close` do, stays
/// through calls that spare the file: those on other files, a sync, and a say (`nb_host`'s `law_file_stays`). That
/// the file is being written stays through calls on the other files.
pub fn law_filling_kept<H: Host>()
    ensures unfinished { (file : ℕ) (old new : H) → Leads H.meaning (KeepsFile file) old new
        → IsUnfinishedNow H.meaning file old → IsUnfinishedNow H.meaning file new }
    ensures filled { (filling : Filling) (bodies : List Body) (old new : H)
        → Leads H.meaning (KeepsFile (plan_of filling).file) old new
        → IsFilledNow H.meaning filling bodies old → IsFilledNow H.meaning filling bodies new }
    ensures written { (others : List ℕ) (plan : SnapshotPlan) (filling : Filling) (bodies : List Body)
        (start old new : H) → (Contains others plan.file → ⊥)
        → Leads H.meaning (AgreesOutside others) old new
        → IsBeingWritten H.meaning others plan filling bodies start old
        → IsBeingWritten H.meaning others plan filling bodies start new }
{}

/// A reader's file is open to it from the `begin` of which it is, and stays so through calls that spare the
/// file: those on other files, a sync, and a say (`nb_host`'s `law_file_stays`).
pub fn law_reading_kept<H: Host>()
    ensures begun { (reader : SnapReader) (host : H)
        → IsReadableNow H.meaning reader ((H.meaning.contents host).file (file_of reader)) host }
    ensures kept { (reader : SnapReader) (bytes : List ℕ) (old new : H)
        → Leads H.meaning (KeepsFile (file_of reader)) old new
        → IsReadableNow H.meaning reader bytes old → IsReadableNow H.meaning reader bytes new }
{}
