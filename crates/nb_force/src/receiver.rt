//! What takes kicks.

ghost use Rattle.std.specs.Prelude.{◌≡◌, ◌≤◌, false, OnOk, Err, [], ◌∷◌};
ghost use Rattle.nb_host.specs.declared.page_name.PageName.{PageName as PageNames};
ghost use Rattle.nb_model.specs.Limits.{kick_limit, most_bodies};
ghost use Rattle.nb_model.specs.Valid.{IsBelow, IsValidBody};
ghost use Rattle.nb_cache.specs.InStep.{IsInStep};
ghost use Rattle.nb_cache.specs.Writes.{RanCached};
ghost use Rattle.nb_force.specs.Receiver.{ReceiverModel, Takes, FitsRest};

use crate::force_error::ForceError;
use nb_cache::Cache;
use nb_host::Host;
use nb_model::{Body, V3};

/// What takes bodies with their half kicks, one after the other. It writes one file of the cache.
pub trait Receiver<H: Host> {
    // What it has taken, the file that it writes, what it is set to, and what it can take.
    ghost model: { ReceiverModel Self };

    /// Takes an unescaped body, by its index in Morton order, counted from 0, with its half kick, in box units
    /// a tick. Damaged names a page of the file that it writes.
    fn take(
        &mut self,
        host: &mut H,
        cache: &mut Cache,
        index: u64,
        body: &Body,
        kick: &V3,
    ) -> Result<(), ForceError>
        requires index { index ≤ most_bodies }
        requires body { IsValidBody body.now }
        requires present { body.now.out ≡ false }
        requires kick { IsBelow kick_limit kick.now }
        requires in_step { IsInStep H.meaning cache.old host.old }
        ensures takes { OnOk result (Takes H.meaning model
            (record { index = index; kicked = record { body = body.now; kick = kick.now } })
            cache.old host.old self.old cache.new host.new self.new) }
        ensures goes_on { FitsRest H.meaning model (record { body = body.now; kick = kick.now })
            cache.old host.old self.old cache.new host.new self.new result }
        ensures file { OnOk result (model.file self.new ≡ model.file self.old) }
        ensures setting { OnOk result (model.setting self.new ≡ model.setting self.old) }
        ensures damaged { (name : PageNames) → result ≡ Err (ForceError.Damaged name)
            → name.file ≡ model.file self.old }
        ensures ran { RanCached H.meaning ForceError.Fault (model.file self.old ∷ []) cache.old host.old
            cache.new host.new result };
}
