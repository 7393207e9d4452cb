//! Adding bodies to a file.

ghost use Rattle.std.specs.Prelude.{◌≡◌, ◌+◌, ◌≤◌, ◌<◌, IsTrue, List, [], ◌∷◌, ◌++◌, length, OnOk, Err};
ghost use Rattle.nb_host.specs.declared.page_name.PageName.{PageName as PageNames};
ghost use Rattle.nb_model.specs.Limits.{kick_limit, most_bodies};
ghost use Rattle.nb_model.specs.Valid.{IsBelow, IsValidBody};
ghost use Rattle.nb_cache.specs.InStep.{IsCachedFile, IsInStep};
ghost use Rattle.nb_cache.specs.View.{seen};
ghost use Rattle.nb_cache.specs.Writes.{RanCached};
ghost use Rattle.nb_order.specs.declared.body_file.KickedBody.{KickedBody as KickedBodies};
ghost use Rattle.nb_record.specs.declared.sizes.TheConstants.{BODY_SIZE};
ghost use Rattle.nb_record.specs.Writing.{IsZeroPaddedFile};
ghost use Rattle.nb_tick.specs.Steps.{HoldsList};
ghost use Rattle.nb_tick.specs.Writer.{HasAdded, CantAdd};

use nb_cache::Cache;
use nb_host::{Host, PageName};
use nb_model::{Body, MOST_BODIES, V3};
use nb_order::{KickedBody, OrderError, page_name, push_body};
use std::marker::Model;

/// A file to which bodies are added behind one another, and how many it has.
#[derive(Drop)]
pub(crate) struct BodyWriter {
    pub(crate) file: u64,
    pub(crate) count: u64,
}

impl Model for BodyWriter {
    ghost use Rattle.std.specs.Prelude.{◌≤◌};
    ghost use Rattle.nb_model.specs.Limits.{most_bodies};
    ghost use Rattle.nb_cache.specs.InStep.{IsCachedFile};
    ghost use Rattle.nb_tick.specs.Writer.{WriterValue};

    ghost Value = { WriterValue };

    ghost view = { λ w. record { file = w.file; count = w.count } };

    ghost invariant = { λ w. IsCachedFile w.file × (w.count ≤ most_bodies) };
}

impl BodyWriter {
    /// A writer of a file that has no body yet.
    pub(crate) fn new(file: u64) -> BodyWriter
        requires { IsCachedFile file }
        ensures { result ≡ record { file = file; count = 0 } }
    {
        BodyWriter { file, count: 0 }
    }

    /// The page to which the next body belongs.
    pub(crate) fn page(&self) -> PageName
        ensures { result.file ≡ self.now.file }
    {
        page_name(self.file, self.count)
    }

    /// Adds a body with its kick, in box units a tick.
    pub(crate) fn add<H: Host>(
        &mut self,
        host: &mut H,
        cache: &mut Cache,
        body: &Body,
        kick: &V3,
    ) -> Result<(), OrderError>
        requires valid { IsValidBody body.now }
        requires kick { IsBelow kick_limit kick.now }
        requires in_step { IsInStep H.meaning cache.old host.old }
        ensures added { OnOk result (HasAdded H.meaning (record { body = body.now; kick = kick.now })
            cache.old host.old self.old cache.new host.new self.new) }
        ensures file { self.new.file ≡ self.old.file }
        ensures damaged { (name : PageNames) → result ≡ Err (OrderError.Damaged name)
            → CantAdd H.meaning cache.old host.old self.old name }
        ensures ran { RanCached H.meaning OrderError.Fault (self.old.file ∷ []) cache.old host.old
            cache.new host.new result }
    {
        if self.count == MOST_BODIES {
            return Err(OrderError::Damaged(self.page()));
        }
        push_body(host, cache, self.file, self.count, body, kick)?;
        self.count += 1;
        Ok(())
    }
}
