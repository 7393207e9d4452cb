//! The snapshot writer, as three types: `Fresh` is to be begun, `Filling` takes bodies, `Closed` is a
//! finished file.
//!
//! Byte 0 of a snapshot is its gate. It is a durable 0 from before the file grows past one byte until all
//! else is durable, and is opened last, so a file that a fault or a crash leaves in part is never taken for
//! a finished one.

ghost use Rattle.std.specs.Prelude.{◌≡◌, ℕ, ◌+◌, ◌<◌, ◌≤◌, IsTrue, IfOk, OnOk, List, [], ◌∷◌, ◌++◌};
ghost use Rattle.std.specs.Option.{ForSome};
ghost use Rattle.nb_model.specs.Limits.{most_bodies};
ghost use Rattle.nb_host.specs.declared.host.TheConstants.{LAST_FILE};
ghost use Rattle.nb_host.specs.Image.{FileBecomes, IsCut, IsOverwritten, IsPartlyCut, IsTorn};
ghost use Rattle.nb_host.specs.Meaning.{IsDurable, Over, Ran, RanSyncing};

use crate::header::{self, GATE};
use crate::length::snapshot_length;
use crate::record;
use nb_host::{Host, HostError, LAST_FILE};
use nb_model::Body;

/// The offset of the gate, in bytes.
const GATE_OFFSET: u64 = 0;

/// The offset behind the gate, in bytes.
const BEHIND_GATE: u64 = 1;

/// The gate byte of a snapshot that isn't finished.
const SHUT: u8 = 0;

/// A snapshot that is to be written.
#[derive(Debug, Drop)]
pub struct Fresh {
    file: u64,
    count: u64,
    time: u64,
    ghost number: { file ≤ LAST_FILE },
    ghost few: { count ≤ most_bodies },
}

/// A snapshot whose header is written, behind a shut gate. It takes its bodies one after the other.
#[derive(Debug, Drop)]
pub struct Filling {
    file: u64,
    count: u64,
    time: u64,
    /// How many bodies were added.
    added: u64,
    /// The id of the last of them.
    last: Option<u64>,
    ghost number: { file ≤ LAST_FILE },
    ghost few: { count ≤ most_bodies },
    ghost within: { added ≤ count },
}

/// A finished snapshot.
#[derive(Debug, Drop)]
pub struct Closed {
    file: u64,
}

impl Fresh {
    ghost use Rattle.nb_format.specs.Writer.{fresh_plan, IsEmptyFilling, StaysUnfinished, IsGateAlone, IsBegun};
    ghost use Rattle.nb_format.specs.Images.{IsShutNow};

    /// The snapshot of `count` bodies at a time in ticks, which is to be written into the file.
    pub fn new(file: u64, count: u64, time: u64) -> Fresh
        requires number { file ≤ LAST_FILE }
        requires few { count ≤ most_bodies }
        ensures { fresh_plan result ≡ record { file = file; count = count; time = time } }
    {
        Fresh { file, count, time }
    }

    /// Shuts the gate and writes the header. A refusal hands nothing back. An unfinished file stays
    /// unfinished, in every image since too.
    pub fn begin<H: Host>(self, host: &mut H) -> Result<Filling, HostError>
        ensures empty { IfOk result (IsEmptyFilling (fresh_plan self)) }
        ensures begun { OnOk result (Over H.meaning
            (FileBecomes (fresh_plan self).file (IsBegun (fresh_plan self))) host.old host.new) }
        ensures shut { OnOk result (IsShutNow H.meaning (fresh_plan self).file host.new) }
        ensures ran { RanSyncing H.meaning 2 HostError.Fault
            (FileBecomes (fresh_plan self).file StaysUnfinished) host.old host.new result }
    {
        self.shut(host)?;
        let Fresh { file, count, time } = self;
        let header = header::encode(count, time);
        host.write_at(file, BEHIND_GATE, &header[BEHIND_GATE as usize..])?;
        Ok(Filling {
            file,
            count,
            time,
            added: 0,
            last: None,
        })
    }

    /// Leaves nothing of the file but a durable 0 in place of its gate.
    fn shut<H: Host>(&self, host: &mut H) -> Result<(), HostError>
        ensures shut { OnOk result
            (Over H.meaning (FileBecomes (fresh_plan self.now).file IsGateAlone) host.old host.new) }
        ensures durable { OnOk result (IsDurable H.meaning host.new) }
        ensures ran { RanSyncing H.meaning 2 HostError.Fault
            (FileBecomes (fresh_plan self.now).file StaysUnfinished) host.old host.new result }
    {
        shorten(host, self.file)?;
        set_gate(host, self.file, SHUT)
    }
}

impl Filling {
    ghost use Rattle.nb_model.specs.declared.body.Body.{Body};
    ghost use Rattle.nb_model.specs.Valid.{IsValidBody};
    ghost use Rattle.nb_format.specs.Writer.{plan_of, added_count, last_added, HasOneMore, HasFilled, StaysShut, IsFinishedAs, Closes, closed_file};

    /// Adds a body at the end. A refusal hands nothing back, and the gate stays shut, in every image since
    /// too.
    pub fn add<H: Host>(self, host: &mut H, body: &Body) -> Result<Filling, HostError>
        requires room { added_count self < (plan_of self).count }
        requires valid { IsValidBody body.now }
        requires rises { ForSome (last_added self) (λ id. id < body.now.id) }
        ensures added { IfOk result (HasOneMore body.now self) }
        ensures filled { (bodies : List Body) → IsTrue H.meaning.tells
            → HasFilled self ((H.meaning.contents host.old).file (plan_of self).file) bodies
            → IfOk result (λ filling. HasFilled filling ((H.meaning.contents host.new).file (plan_of self).file)
            (bodies ++ body.now ∷ [])) }
        ensures ran { Ran H.meaning HostError.Fault (FileBecomes (plan_of self).file StaysShut)
            host.old host.new result }
    {
        let Filling {
            file,
            count,
            time,
            added,
            ..
        } = self;
        host.write_at(file, snapshot_length(added), &record::encode(body))?;
        Ok(Filling {
            file,
            count,
            time,
            added: added + 1,
            last: Some(body.id),
        })
    }

    /// Makes all that was written durable, and then opens the gate. A refusal hands nothing back: the file is
    /// unfinished then, or finished with the right bytes, and so it is in every image since.
    pub fn close<H: Host>(self, host: &mut H) -> Result<Closed, HostError>
        requires { added_count self ≡ (plan_of self).count }
        ensures closed { IfOk result (λ closed. closed_file closed ≡ (plan_of self).file) }
        ensures finished { (bodies : List Body) → IsTrue H.meaning.tells
            → HasFilled self ((H.meaning.contents host.old).file (plan_of self).file) bodies
            → OnOk result (FileBecomes (plan_of self).file (IsFinishedAs bodies (plan_of self).time)
            (H.meaning.contents host.old) (H.meaning.contents host.new)) }
        ensures durable { OnOk result (IsDurable H.meaning host.new) }
        ensures ran { RanSyncing H.meaning 2 HostError.Fault (FileBecomes (plan_of self).file
            (Closes self ((H.meaning.contents host.old).file (plan_of self).file)))
            host.old host.new result }
    {
        let Filling { file, .. } = self;
        host.sync()?;
        set_gate(host, file, GATE)?;
        Ok(Closed { file })
    }
}

impl Closed {
    ghost use Rattle.nb_format.specs.Writer.{closed_file};

    /// The number of the finished file.
    pub fn file(&self) -> u64
        ensures { result ≡ closed_file self.now }
    {
        self.file
    }
}

/// Cuts the file off behind its gate, and makes that durable.
fn shorten<H: Host>(host: &mut H, file: u64) -> Result<(), HostError>
    requires { file ≤ LAST_FILE }
    ensures short { OnOk result (Over H.meaning (FileBecomes file (IsCut 1)) host.old host.new) }
    ensures durable { OnOk result (IsDurable H.meaning host.new) }
    ensures ran { RanSyncing H.meaning 1 HostError.Fault (FileBecomes file (IsPartlyCut 1))
        host.old host.new result }
{
    host.cut(file, BEHIND_GATE)?;
    host.sync()
}

/// Writes the gate, and makes it durable.
fn set_gate<H: Host>(host: &mut H, file: u64, gate: u8) -> Result<(), HostError>
    requires { file ≤ LAST_FILE }
    ensures set { OnOk result (Over H.meaning (FileBecomes file (IsOverwritten 0 (gate ∷ [])))
        host.old host.new) }
    ensures durable { OnOk result (IsDurable H.meaning host.new) }
    ensures ran { RanSyncing H.meaning 1 HostError.Fault (FileBecomes file (IsTorn 0 1))
        host.old host.new result }
{
    host.write_at(file, GATE_OFFSET, &[gate])?;
    host.sync()
}
