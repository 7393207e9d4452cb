//! A journal that is to be started: it is laid down behind a shut gate, and then the gate opens.

ghost use Rattle.std.specs.Prelude.{◌≡◌, ◌+◌, ◌≤◌, [], ◌∷◌, length, IsTrue, IfOk, OnOk};
ghost use Rattle.nb_model.specs.Limits.{most_bodies};
ghost use Rattle.nb_model.specs.Valid.{AreInRange};
ghost use Rattle.nb_host.specs.Crashes.{AgreesOutside, ImagesFollow};
ghost use Rattle.nb_host.specs.Image.{FileBecomes, IsPartlyCut, IsTorn, overwritten};
ghost use Rattle.nb_host.specs.Meaning.{IsDurable, IsDurableFile, RanSyncing};
ghost use Rattle.nb_journal.specs.Counters.{counters_of, new_log};
ghost use Rattle.nb_journal.specs.Form.{IsCleanJournal};
ghost use Rattle.nb_journal.specs.Images.{prepared, syncs_of_cut, IsFreshNow, IsPrepared, StaysFresh, Starts};
ghost use Rattle.nb_journal.specs.Offsets.{journal_file, page_length, started_gate};

use crate::form::{Heading, JOURNAL_FILE, PAGE_LENGTH, SHUT, STARTED, VERSION, page};
use crate::journal::{Journal, open_gate};
use nb_host::{Host, HostError, PAGE_SIZE};
use nb_model::Params;
use std::marker::Model;

/// A journal that is laid down, and whose gate is still shut. Contracts see it as its log, which has no
/// entries.
#[derive(Debug, Drop)]
pub struct Ready {
    heading: Heading,
}

impl Model for Ready {
    ghost use Rattle.nb_journal.specs.Counters.{log_under};
    ghost use Rattle.nb_journal.specs.Form.{Log, IsLawful};

    ghost Value = { Log };

    ghost view = { λ r. log_under r.heading };

    ghost invariant = { λ r. IsLawful (log_under r.heading) };
}

/// Lays down the journal of a run of `count` bodies, of which `gone` are out, from a time in ticks on. No
/// journal is to be started: then none is in any image, and a refusal leaves none.
pub fn prepare<H: Host>(
    host: &mut H,
    params: &Params,
    count: u64,
    time: u64,
    gone: u64,
) -> Result<Ready, HostError>
    requires params { AreInRange params.now }
    requires count { count ≤ most_bodies }
    requires gone { gone ≤ count }
    ensures ready { IfOk result (λ ready. ready ≡ new_log params.now count time gone) }
    ensures laid { OnOk result (IsTrue H.meaning.tells
        → (H.meaning.contents host.new).file journal_file ≡ prepared (new_log params.now count time gone)) }
    ensures images { IsFreshNow H.meaning host.old
        → ImagesFollow H.meaning.crashes host.old host.new StaysFresh }
    ensures ran { RanSyncing H.meaning (syncs_of_cut ((H.meaning.contents host.old).file journal_file) + 1)
        HostError.Fault (AgreesOutside (journal_file ∷ [])) host.old host.new result }
{
    let heading = Heading {
        version: VERSION,
        params: *params,
        count,
        time,
        gone,
    };
    shorten(host)?;
    host.write_at(JOURNAL_FILE, 0, &page(SHUT, &heading))?;
    host.sync()?;
    host.write_at(JOURNAL_FILE, PAGE_LENGTH, &[0; PAGE_SIZE])?;
    Ok(Ready { heading })
}

/// Leaves no more of the file than page 0, and makes that durable where something is cut off.
fn shorten<H: Host>(host: &mut H) -> Result<(), HostError>
    ensures short { OnOk result (IsTrue H.meaning.tells
        → length ((H.meaning.contents host.new).file journal_file) ≤ page_length) }
    ensures durable { OnOk result (IsDurableFile H.meaning journal_file host.old
        → IsDurableFile H.meaning journal_file host.new) }
    ensures ran { RanSyncing H.meaning (syncs_of_cut ((H.meaning.contents host.old).file journal_file))
        HostError.Fault (FileBecomes journal_file (IsPartlyCut page_length)) host.old host.new result }
{
    if host.len(JOURNAL_FILE)? <= PAGE_LENGTH {
        return Ok(());
    }
    host.cut(JOURNAL_FILE, PAGE_LENGTH)?;
    host.sync()?;
    Ok(())
}

/// Starts the journal: its gate opens when all that was written before, in every file, is durable. A refusal
/// hands nothing back. The journal is then started or isn't.
pub fn start_gate<H: Host>(host: &mut H, ready: Ready) -> Result<Journal, HostError>
    ensures counters { IfOk result (λ journal. journal ≡ counters_of ready) }
    ensures started { OnOk result (IsTrue H.meaning.tells
        → (H.meaning.contents host.old).file journal_file ≡ prepared ready
        → IsCleanJournal ready ((H.meaning.contents host.new).file journal_file)) }
    ensures written { OnOk result (IsTrue H.meaning.tells → (H.meaning.contents host.new).file journal_file
        ≡ overwritten 0 (started_gate ∷ []) ((H.meaning.contents host.old).file journal_file)) }
    ensures durable { OnOk result (IsDurable H.meaning host.new) }
    ensures images { IsPrepared H.meaning ready host.old
        → ImagesFollow H.meaning.crashes host.old host.new (Starts ready (H.meaning.contents host.old)) }
    ensures ran { RanSyncing H.meaning 2 HostError.Fault (FileBecomes journal_file (IsTorn 0 1)) host.old
        host.new result }
{
    let journal = Journal::begun(ready.heading);
    host.sync()?;
    open_gate(host, 0, STARTED)?;
    Ok(journal)
}
