//! The file of the initial snapshot.

ghost use Rattle.std.specs.Prelude.{◌≡◌, ◌≤◌, IsTrue, IfOk, IfErr, OnOk, Err, Some, List, [], length};
ghost use Rattle.nb_model.specs.declared.body.Body.{Body};
ghost use Rattle.nb_host.specs.Crashes.{Stays};
ghost use Rattle.nb_host.specs.Meaning.{Ran};
ghost use Rattle.nb_format.specs.Snapshot.{AreStoredBodies, IsSnapshot};
ghost use Rattle.nb_format.specs.SnapshotRefusal.{snapshot_refusal, IsBySnapshot};
ghost use Rattle.nb_format.specs.Reader.{count_of, time_of, IsAtStart, HasRead};
ghost use Rattle.nb_engine.specs.Files.{init_file};

use nb_format::{SnapError, SnapReader};
use nb_host::Host;
use nb_model::Body;
use std::alloc::{AllocFailed, Global};

/// Reads the bodies of the snapshot.
pub fn read_bodies<H: Host>(
    alloc: Global,
    host: &mut H,
    mut reader: SnapReader,
) -> Result<Vec<Body>, SnapError>
    requires { IsAtStart init_file reader }
    ensures stored { IfOk result (λ bodies. AreStoredBodies bodies.items) }
    ensures count { IfOk result (λ bodies. length bodies.items ≡ count_of reader) }
    ensures whole { IfOk result (λ bodies. IsTrue H.meaning.tells
        → HasRead reader ((H.meaning.contents host.old).file init_file) []
        → IsSnapshot ((H.meaning.contents host.old).file init_file) bodies.items (time_of reader)) }
    ensures bad { IfErr result (λ error. IsBySnapshot error → IsTrue H.meaning.tells
        → HasRead reader ((H.meaning.contents host.old).file init_file) []
        → snapshot_refusal ((H.meaning.contents host.old).file init_file) ≡ Some error) }
    ensures ran { Ran H.meaning SnapError.Fault Stays host.old host.new result }
{
    let mut bodies = Vec::new(alloc);
    while let Some(body) = reader.next(host)? {
        bodies
            .push(body)
            .map_err(|_: AllocFailed<Body>| SnapError::NoMemory)?;
    }
    Ok(bodies)
}
