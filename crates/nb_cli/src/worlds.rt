//! The laws of invocations: of any list of them, and of the one that is three in one. Their functions do nothing: their
//! contracts are the laws.

ghost use Rattle.std.specs.Prelude.{◌≡◌, ◌≤◌, ℕ, true, List, length, ◌++◌};
ghost use Rattle.nb_model.specs.Limits.{most_bodies};
ghost use Rattle.nb_host.specs.declared.host.Channel.TheVariants as channels;
ghost use Rattle.nb_host.specs.Image.{Image};
ghost use Rattle.nb_engine.specs.Acknowledged.{Acknowledges};
ghost use Rattle.nb_format.specs.Snapshot.{IsFinishedSnapshot};
ghost use Rattle.nb_engine.specs.declared.going.Pace.{Pace};
ghost use Rattle.nb_engine.specs.Histories.{legs_in, run_length, History, run_of, ticks_of, IsHistory};
ghost use Rattle.nb_engine.specs.Represents.{snap_of, IsSnapshotOf, RepresentsRun, RepresentsHistory, IsSoundImage};
ghost use Rattle.nb_cli.specs.declared.words.Job.TheVariants as job;
ghost use Rattle.nb_cli.specs.Demo.{DemoLeads};
ghost use Rattle.nb_cli.specs.Worlds.{Extends, Invocation, AreInvocations, image_after, asked_for, IsAmong, IsNew, WasStarted, Lasts};

use nb_engine::law_acknowledged;

/// What no crash can do.
///
/// A folder begins without a run. Commands follow, any number of them, in any order and with any budget of pages
/// and walks. Each is done, or is refused, or ends at a fault of the device, or is cut off at any moment by a
/// crash. Then, whatever happened:
///
/// - the folder holds no run and no tick was told, or it holds one run;
/// - that run was started by one of the commands, by `start` of the two files as they were then, or by `demo` of the
///   bodies that it makes; from then on its parameters, its first bodies and the time of its begin stay;
/// - a leg that was begun stays, and each is one that `go` or `demo` was asked for, in that order;
/// - a tick that is done stays done, and each tick that was told on standard output is done;
/// - a finished snapshot of a tick that is done stays, byte for byte, and is the definition's list.
///
/// By `nbody`'s clauses `sound` and `extends` its invocations are such a list.
pub fn law_worlds()
    // What a folder holds is one run: no two histories are represented by one image.
    ensures one { (image : Image) (h other : History) → RepresentsRun h image → RepresentsRun other image
        → h ≡ other }

    // Where it holds a run, one of the invocations started it, of the files as they were then.
    ensures started { (first : Image) (invocations : List Invocation) (h : History) → IsNew first
        → AreInvocations first invocations → RepresentsRun h (image_after first invocations) → WasStarted first invocations h }

    // A run lasts: what some invocations left of it, all those behind them go on with.
    ensures lasts { (first : Image) (before behind : List Invocation) (h : History) → IsNew first
        → AreInvocations first (before ++ behind) → RepresentsRun h (image_after first before)
        → Lasts h (image_after first before) (image_after first (before ++ behind)) }

    // Its legs were asked for, and its ticks are the first of those that lead along them.
    ensures asked { (first : Image) (invocations : List Invocation) (h : History) → IsNew first
        → AreInvocations first invocations → RepresentsRun h (image_after first invocations)
        → IsAmong (legs_in h.log.entries) (asked_for invocations) × (ticks_of h ≤ run_length (run_of h)) }

    // A tick that was told is done.
    ensures told { (first : Image) (invocations : List Invocation) (k : ℕ) → IsNew first → AreInvocations first invocations
        → Acknowledges ((image_after first invocations).said channels.Out) k → 1 ≤ k
        → (h : History) × IsHistory h × RepresentsHistory h (image_after first invocations) × (k ≤ ticks_of h) }

    // A finished snapshot of a tick that is done is the run's list after that tick, byte for byte.
    ensures snapshots { (image : Image) (h : History) (j : ℕ) → RepresentsRun h image → 1 ≤ j → j ≤ ticks_of h
        → IsFinishedSnapshot (length h.bodies) (image.file (snap_of j))
        → IsSnapshotOf (run_of h) j (image.file (snap_of j)) }

    // And the folder is sound.
    ensures sound { (first : Image) (invocations : List Invocation) → IsNew first → AreInvocations first invocations
        → IsSoundImage (image_after first invocations) }
{}

/// What `demo` may do to a folder, at any moment, is what an invocation of it may, and the folder stays sound.
pub fn law_demo()
    ensures sound { (seed count target : ℕ) (old new : Image) → count ≤ most_bodies → IsSoundImage old
        → DemoLeads true seed count target old new → IsSoundImage new }
    ensures extends { (seed count target : ℕ) (pace : Pace) (old new : Image) → IsSoundImage old
        → DemoLeads true seed count target old new → Extends (job.Demo seed count target pace) old new }
{
    law_acknowledged();
}
