//! The file of the initial snapshot.

ghost use Rattle.std.specs.Prelude.{◌≡◌, ◌+◌, ◌*◌, ◌<◌, ◌≤◌, cond, IsTrue, IfOk, IfErr, Some, List, []};
ghost use Rattle.nb_model.specs.declared.body.Body.{Body as Bodies};
ghost use Rattle.nb_model.specs.Limits.{most_bodies, mass_limit};
ghost use Rattle.nb_host.specs.Crashes.{Stays};
ghost use Rattle.nb_host.specs.Meaning.{Ran};
ghost use Rattle.nb_format.specs.Snapshot.{IsSnapshot};
ghost use Rattle.nb_format.specs.SnapshotRefusal.{snapshot_refusal, IsBySnapshot};
ghost use Rattle.nb_format.specs.Reader.{count_of, time_of, IsAtStart, HasRead};
ghost use Rattle.nb_engine.specs.Reading.{census_of, IsCensus};
ghost use Rattle.nb_engine.specs.Files.{init_file};

use nb_format::{SnapError, SnapReader};
use nb_host::Host;
use nb_model::Body;

/// What is counted of bodies.
#[derive(Clone, Copy, PartialEq, Eq, Debug)]
pub struct Census {
    /// How many there are.
    pub count: u64,
    /// The mass of all of them.
    pub mass: u64,
    /// How many of them are out.
    pub gone: u64,
}

impl Census {
    /// That of no bodies.
    pub(crate) const NONE: Census = Census {
        count: 0,
        mass: 0,
        gone: 0,
    };

    /// That of one body more.
    pub(crate) fn with(self, body: &Body) -> Census
        requires room { self.count < most_bodies }
        requires light { self.mass ≤ self.count * mass_limit }
        requires few { self.gone ≤ self.count }
        requires small { body.now.mass < mass_limit }
        ensures count { result.count ≡ self.count + 1 }
        ensures mass { result.mass ≡ self.mass + body.now.mass }
        ensures gone { result.gone ≡ self.gone + cond body.now.out 1 0 }
    {
        Census {
            count: self.count + 1,
            mass: self.mass + u64::from(body.mass),
            gone: if body.out { self.gone + 1 } else { self.gone },
        }
    }
}

/// Reads on to the end of the snapshot, and counts its bodies. It keeps none.
pub fn survey<H: Host>(host: &mut H, mut reader: SnapReader) -> Result<Census, SnapError>
    requires { IsAtStart init_file reader }
    ensures counted { IfOk result IsCensus }
    ensures full { IfOk result (λ census. census.count ≡ count_of reader) }
    ensures whole { IfOk result (λ census. IsTrue H.meaning.tells
        → HasRead reader ((H.meaning.contents host.old).file init_file) []
        → (bodies : List Bodies) × (census ≡ census_of bodies)
        × IsSnapshot ((H.meaning.contents host.old).file init_file) bodies (time_of reader)) }
    ensures bad { IfErr result (λ error. IsBySnapshot error → IsTrue H.meaning.tells
        → HasRead reader ((H.meaning.contents host.old).file init_file) []
        → snapshot_refusal ((H.meaning.contents host.old).file init_file) ≡ Some error) }
    ensures ran { Ran H.meaning SnapError.Fault Stays host.old host.new result }
{
    let mut census = Census::NONE;
    while let Some(body) = reader.next(host)? {
        census = census.with(&body);
    }
    Ok(census)
}
