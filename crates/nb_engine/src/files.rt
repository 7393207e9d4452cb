//! The numbers of the files of a folder that a session names itself.

ghost use Rattle.std.specs.Prelude.{◌≡◌, ◌+◌, ◌≤◌};
ghost use Rattle.nb_host.specs.declared.host.TheConstants.{LAST_FILE};
ghost use Rattle.nb_model.specs.Limits.{most_ticks};
ghost use Rattle.nb_engine.specs.Represents.{snap_of};

/// The file of the parameters.
pub const PARAMS_FILE: u64 = 0;

/// The file of the initial snapshot.
pub const INIT_FILE: u64 = 1;

/// The file into which the initial snapshot is read.
pub(crate) const READ_FILE: u64 = 5;

/// The file in which the bodies of a snapshot stand in the order of their ids.
pub(crate) const SORTED_FILE: u64 = 6;

/// The file of the snapshot after tick 0, which is never due: those after tick k stand k behind it.
const FIRST_SNAPSHOT: u64 = 16;

/// The file of the snapshot that is written after so many ticks.
pub fn snapshot_file(ticks: u64) -> u64
    requires { ticks ≤ most_ticks }
    ensures number { result ≡ snap_of ticks }
    ensures there { result ≤ LAST_FILE }
{
    FIRST_SNAPSHOT + ticks
}
