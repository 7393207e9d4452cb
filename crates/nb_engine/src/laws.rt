//! Laws of runs and of what represents them. Each is a function that does nothing: its contract is the law,
//! for all runs.

ghost use Rattle.std.specs.Prelude.{◌≡◌, ℕ, ◌≤◌, ◌<◌, ◌^◌, List, [], ◌∷◌, ◌++◌, take, length};
ghost use Rattle.nb_host.specs.Crashes.{AgreesOutside};
ghost use Rattle.nb_host.specs.Image.{Image};
ghost use Rattle.nb_model.specs.Leapfrog.{escaped_count};
ghost use Rattle.nb_model.specs.Valid.{IsValidBodies};
ghost use Rattle.nb_format.specs.Lines.{tick_line};
ghost use Rattle.nb_format.specs.Snapshot.{IsFinishedSnapshot};
ghost use Rattle.nb_journal.specs.Entries.{IsNextLeg};
ghost use Rattle.nb_journal.specs.Form.{IsLawful, IsCleanJournal, progress_of};
ghost use Rattle.nb_journal.specs.Offsets.{journal_file};
ghost use Rattle.nb_engine.specs.Acknowledged.{IsAcknowledgedUpTo, IsOtherText};
ghost use Rattle.nb_engine.specs.Histories.{Run, state_at, time_at, run_length, IsRun, History, run_of, ticks_of, IsHistory, ticked, legged};
ghost use Rattle.nb_tick.specs.Slots.{slot_of};
ghost use Rattle.nb_engine.specs.Files.{init_file};
ghost use Rattle.nb_engine.specs.Represents.{snap_of, RepresentsRun};
ghost use Rattle.nb_engine.specs.Gates.{CanTick};

use nb_format::{law_one_tick, law_said_lines};
use nb_model::law_back;

/// A run from tick to tick: each list is valid, bodies that are out stay out, and the journal's time is the
/// run's.
pub fn law_run()
    ensures begin { (run : Run) → (state_at run 0 ≡ run.bodies) × (time_at run 0 ≡ run.begin) }
    ensures valid { (run : Run) (k : ℕ) → IsRun run
        → IsValidBodies run.params (state_at run k) }
    ensures out { (run : Run) (i k : ℕ) → i ≤ k
        → escaped_count (state_at run i) ≤ escaped_count (state_at run k) }
    ensures within { (h : History) → IsLawful h.log → ticks_of h ≤ run_length (run_of h) }
    ensures time { (h : History) → IsLawful h.log
        → (progress_of h.log).time ≡ time_at (run_of h) (ticks_of h) }
{}

/// Where no body became out, a run has one list for each time: its states at equal times are equal, and at
/// the time of its begin they are the first list. So their finished snapshots are the same bytes, and at that
/// time those of the initial snapshot.
pub fn law_times()
    ensures states { (run : Run) (k i j : ℕ) → IsRun run
        → escaped_count (state_at run k) ≡ escaped_count run.bodies → i ≤ k → j ≤ k
        → time_at run i ≡ time_at run j → state_at run i ≡ state_at run j }
    ensures snapshots { (h : History) (image : Image) (i j : ℕ) → IsHistory h
        → RepresentsRun h image
        → escaped_count (state_at (run_of h) (ticks_of h)) ≡ escaped_count h.bodies
        → 1 ≤ i → i ≤ ticks_of h → 1 ≤ j → j ≤ ticks_of h
        → time_at (run_of h) i ≡ time_at (run_of h) j
        → IsFinishedSnapshot (length h.bodies) (image.file (snap_of i))
        → IsFinishedSnapshot (length h.bodies) (image.file (snap_of j))
        → image.file (snap_of i) ≡ image.file (snap_of j) }
    ensures back { (h : History) (image : Image) (i : ℕ) → IsHistory h
        → RepresentsRun h image
        → escaped_count (state_at (run_of h) (ticks_of h)) ≡ escaped_count h.bodies
        → 1 ≤ i → i ≤ ticks_of h → time_at (run_of h) i ≡ h.log.begin_time
        → IsFinishedSnapshot (length h.bodies) (image.file (snap_of i))
        → image.file (snap_of i) ≡ image.file init_file }
{
    law_back();
}

/// A tick is acknowledged by its whole line. What is said of the line of tick k, whole or in part,
/// acknowledges no tick beyond k, behind whatever was said before. What is said of a text whose lines each
/// have a byte that stands in no line of a tick acknowledges none.
pub fn law_acknowledged()
    ensures none { (k : ℕ) → IsAcknowledgedUpTo k [] }
    ensures line { (k time gone n : ℕ) (said : List ℕ) → k < 2 ^ 64 → time < 2 ^ 64 → gone < 2 ^ 64
        → IsAcknowledgedUpTo k said → IsAcknowledgedUpTo k (said ++ take n (tick_line k time gone)) }
    ensures other { (k n : ℕ) (said text : List ℕ) → IsOtherText text
        → IsAcknowledgedUpTo k said → IsAcknowledgedUpTo k (said ++ take n text) }
    ensures more { (i k : ℕ) (said : List ℕ) → i ≤ k → IsAcknowledgedUpTo i said → IsAcknowledgedUpTo k said }
{
    law_one_tick();
    law_said_lines();
}

/// What becomes of a folder that represents a run when a gate of its journal opens. Behind the gate of the
/// next tick it represents the run up to that tick, where the other slot holds the list after it with its
/// kicks, all due snapshots are finished, and the next tick's file isn't opened. Behind that of a leg it
/// represents the run with that leg. Through calls that spare what it names it represents what it did.
pub fn law_represents()
    ensures kept { (h : History) (old new : Image) → RepresentsRun h old
        → new.file journal_file ≡ old.file journal_file → new.file init_file ≡ old.file init_file
        → new.file (slot_of (ticks_of h)) ≡ old.file (slot_of (ticks_of h))
        → ((j : ℕ) → 1 ≤ j → j ≤ ticks_of h → new.file (snap_of j) ≡ old.file (snap_of j))
        → RepresentsRun h new }
    ensures tick { (h : History) (before new : Image) → IsHistory h
        → RepresentsRun h before → CanTick h before → AgreesOutside (journal_file ∷ []) before new
        → IsCleanJournal (ticked h).log (new.file journal_file)
        → IsHistory (ticked h) × RepresentsRun (ticked h) new }
    ensures leg { (h : History) (target : ℕ) (before new : Image) → IsHistory h
        → IsNextLeg (progress_of h.log) target → RepresentsRun h before
        → AgreesOutside (journal_file ∷ []) before new
        → IsCleanJournal (legged target h).log (new.file journal_file)
        → IsHistory (legged target h) × RepresentsRun (legged target h) new }
{}
