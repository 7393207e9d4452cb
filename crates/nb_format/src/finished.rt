//! Whether a snapshot file is finished.

ghost use Rattle.std.specs.Prelude.{◌≡◌, ◌≤◌, ◌↔◌, IsTrue, IfOk};
ghost use Rattle.nb_host.specs.Crashes.{Stays};
ghost use Rattle.nb_host.specs.Meaning.{Ran};
ghost use Rattle.nb_model.specs.Limits.{most_bodies};
ghost use Rattle.nb_format.specs.Snapshot.{IsFinishedSnapshot};

use crate::header::GATE;
use crate::length::snapshot_length;
use nb_host::{Host, HostError, LAST_FILE};

/// Whether the file is finished for `count` bodies: it has their length, and its gate is open. It only reads.
pub fn snap_finished<H: Host>(host: &mut H, file: u64, count: u64) -> Result<bool, HostError>
    requires number { file ≤ LAST_FILE }
    requires few { count ≤ most_bodies }
    ensures finished { IfOk result (λ answer. IsTrue H.meaning.tells
        → (IsTrue answer ↔ IsFinishedSnapshot count ((H.meaning.contents host.old).file file))) }
    ensures ran { Ran H.meaning HostError.Fault Stays host.old host.new result }
{
    if host.len(file)? != snapshot_length(count) {
        return Ok(false);
    }
    let mut first = [0];
    let found = host.read_at(file, 0, &mut first)?;
    Ok(found == 1 && first[0] == GATE)
}
