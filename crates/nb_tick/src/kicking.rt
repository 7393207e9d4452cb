//! The second half kick.

ghost use Rattle.std.specs.Prelude.{◌≡◌, ◌≢◌, ◌≤◌, IsTrue, List, [], ◌∷◌, map, length, All, OnOk, Err};
ghost use Rattle.nb_host.specs.declared.page_name.PageName.{PageName as PageNames};
ghost use Rattle.nb_model.specs.declared.body.Body.{Body as Bodies};
ghost use Rattle.nb_model.specs.declared.way.Way.{Way as Ways};
ghost use Rattle.nb_model.specs.Limits.{most_bodies};
ghost use Rattle.nb_model.specs.Valid.{IsDriftedBody};
ghost use Rattle.nb_cache.specs.InStep.{IsCachedFile, IsInStep};
ghost use Rattle.nb_cache.specs.View.{seen};
ghost use Rattle.nb_cache.specs.Writes.{RanCached};
ghost use Rattle.nb_record.specs.declared.sizes.TheConstants.{BODY_SIZE};
ghost use Rattle.nb_record.specs.Tree.{IsTreeOf};
ghost use Rattle.nb_record.specs.Writing.{IsZeroPaddedFile};
ghost use Rattle.nb_walk.specs.Shown.{IsWalkable};
ghost use Rattle.nb_tick.specs.Steps.{HoldsList, kicked_one, in_morton_order, CantKick};
ghost use Rattle.nb_tick.specs.Writer.{HasWritten, CanAdd};

use crate::body_writer::BodyWriter;
use crate::drifting::add_escaped;
use crate::tick_error::TickError;
use nb_cache::Cache;
use nb_fixed::accelerate;
use nb_force::{ForceError, Receiver, kicks};
use nb_host::Host;
use nb_model::{Body, Params, V3, Way};
use nb_record::Tree;
use nb_walk::Pool;

/// Takes drifted bodies with their second half kick, and writes them with it.
#[derive(Drop)]
pub(crate) struct Kicker {
    way: Way,
    writer: BodyWriter,
}

impl<H: Host> Receiver<H> for Kicker {
    ghost model = { record {
      has_taken = λ k files list. HasWritten files k.writer (map (λ g. kicked_one k.way g.kicked) list);
      file = λ k. k.writer.file;
      Setting = Ways;
      setting = λ k. k.way;
      fits = λ k files more.
          CanAdd files k.writer (length more) × All (λ one. IsDriftedBody one.body) more;
    } };

    fn take(
        &mut self,
        host: &mut H,
        cache: &mut Cache,
        index: u64,
        body: &Body,
        kick: &V3,
    ) -> Result<(), ForceError> {
        let _ = index;
        let kicked = accelerate(self.way, kick, *body);
        if !kicked.is_valid() {
            return Err(ForceError::Damaged(self.writer.page()));
        }
        self.writer.add(host, cache, &kicked, kick)?;
        Ok(())
    }
}

/// Kicks the bodies of a tree into a file, of which there are `count` with those that are out: these follow
/// the others as they are.
pub(crate) fn kick_all<H: Host>(
    host: &mut H,
    cache: &mut Cache,
    pool: &mut Pool,
    params: &Params,
    tree: &Tree,
    to: u64,
    count: u64,
    way: Way,
) -> Result<(), TickError>
    requires tree { IsWalkable params.now tree.now }
    requires most { tree.now.count ≤ count }
    requires files { IsCachedFile tree.now.bodies × IsCachedFile tree.now.cells × IsCachedFile to }
    requires apart { (to ≢ tree.now.bodies) × (to ≢ tree.now.cells) }
    requires count { count ≤ most_bodies }
    requires in_step { IsInStep H.meaning cache.old host.old }
    ensures kicked { OnOk result (IsTrue H.meaning.tells → (bodies : List Bodies)
        → IsTreeOf tree.now (seen H.meaning cache.old host.old) params.now bodies → length bodies ≡ count
        → HoldsList (seen H.meaning cache.new host.new to)
        (map (kicked_one way) (in_morton_order params.now bodies))
        × IsZeroPaddedFile BODY_SIZE (seen H.meaning cache.new host.new to)) }
    ensures room { pool.new.room ≡ pool.old.room }
    ensures damaged { (name : PageNames) → result ≡ Err (TickError.Damaged name)
        → CantKick H.meaning params.now (tree.now.bodies ∷ tree.now.cells ∷ to ∷ []) tree.now count
        cache.old host.old name }
    ensures ran { RanCached H.meaning TickError.Fault (to ∷ []) cache.old host.old
        cache.new host.new result }
{
    cache.empty(host, to)?;
    let mut kicker = Kicker {
        way,
        writer: BodyWriter::new(to),
    };
    kicks(host, cache, pool, params, tree, &mut kicker)?;
    add_escaped(
        host,
        cache,
        tree.bodies,
        tree.count,
        count,
        &mut kicker.writer,
    )
}
