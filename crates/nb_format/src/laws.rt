//! Laws over the snapshot form. Each is a function that does nothing: its contract is the law, for all
//! bytes and lists.

ghost use Rattle.std.specs.Prelude.{◌≡◌, ℕ, None, Some, List, length};
ghost use Rattle.nb_model.specs.declared.body.Body.{Body};
ghost use Rattle.nb_format.specs.Snapshot.{IsSnapshot, IsNoSnapshot, IsFinishedSnapshot};
ghost use Rattle.nb_format.specs.SnapshotRefusal.{snapshot_refusal, AreBytes, IsBySnapshot};
ghost use Rattle.nb_format.specs.declared.snap_error.SnapError.{SnapError};

/// The same bytes are a snapshot of one list and one time only.
pub fn law_one_snapshot()
    ensures { (bytes : List ℕ) (a b : List Body) (s t : ℕ) → IsSnapshot bytes a s → IsSnapshot bytes b t
        → (a ≡ b) × (s ≡ t) }
{}

/// A snapshot is finished, for the count of its bodies.
pub fn law_snapshot_is_finished()
    ensures { (bytes : List ℕ) (bodies : List Body) (time : ℕ) → IsSnapshot bytes bodies time
        → IsFinishedSnapshot (length bodies) bytes }
{}

/// Bytes are a snapshot exactly where nothing of them is refused, and none of their refusals is one of the
/// host's.
pub fn law_snapshot_refusal()
    ensures snapshot { (bytes : List ℕ) (bodies : List Body) (time : ℕ) → IsSnapshot bytes bodies time
        → snapshot_refusal bytes ≡ None }
    ensures none { (bytes : List ℕ) → AreBytes bytes → snapshot_refusal bytes ≡ None
        → (bodies : List Body) × (time : ℕ) × IsSnapshot bytes bodies time }
    ensures some { (bytes : List ℕ) (e : SnapError) → snapshot_refusal bytes ≡ Some e
        → IsNoSnapshot bytes × IsBySnapshot e }
{}
