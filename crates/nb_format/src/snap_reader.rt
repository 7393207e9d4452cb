//! The snapshot reader. It streams: it holds the header's numbers and how far it has read, and no bodies.

ghost use Rattle.std.specs.Prelude.{◌≡◌, ◌≢◌, ℕ, ◌+◌, ◌*◌, ◌<◌, ◌≤◌, ◌↔◌, ◌⊎◌, IsTrue, IfOk, IfErr, OnOk, OnErr, IfSome, Ok, Err, None, Some, List, [], ◌∷◌, ◌++◌, length};
ghost use Rattle.nb_model.specs.Limits.{most_bodies};
ghost use Rattle.nb_host.specs.declared.host.TheConstants.{LAST_FILE, PLACE_LIMIT};
ghost use Rattle.nb_host.specs.Crashes.{Stays};
ghost use Rattle.nb_host.specs.Image.{readable};
ghost use Rattle.nb_host.specs.Meaning.{Ran};
ghost use Rattle.nb_format.specs.SnapshotRefusal.{IsBySnapshot};

use crate::SnapError;
use crate::header::{self, HEADER_LENGTH, Header};
use crate::length::snapshot_length;
use crate::record::{Fields, RECORD_LENGTH};
use nb_host::{Host, LAST_FILE, PLACE_LIMIT};
use nb_model::Body;

/// The reader of one snapshot file. It speaks of the file as `begin` found it: between two calls of `next`
/// the file may have become shorter, and no other change is foreseen.
#[derive(Clone, Copy, PartialEq, Eq, Debug)]
pub struct SnapReader {
    file: u64,
    count: u64,
    time: u64,
    /// How many bodies were read.
    read: u64,
    /// The id of the last of them.
    last: Option<u64>,
    ghost number: { file ≤ LAST_FILE },
    ghost few: { count ≤ most_bodies },
    ghost within: { read ≤ count },
}

impl SnapReader {
    ghost use Rattle.nb_model.specs.declared.body.Body.{Body};
    ghost use Rattle.nb_model.specs.Bytes.{body_bytes};
    ghost use Rattle.nb_format.specs.Snapshot.{snapshot_length, IsSnapshot};
    ghost use Rattle.nb_format.specs.SnapshotRefusal.{header_refusal, record_refusal, snapshot_refusal, IsOfHeader, IsOfRecord};
    ghost use Rattle.nb_format.specs.Reader.{file_of, count_of, time_of, read_count, last_id, IsAtStart, MayFollow, IsBehind, HasRead, IsReadableNow, TellsNext};

    /// Reads the header of the file, or tells the first of its fields that is bad. It only reads.
    pub fn begin<H: Host>(host: &mut H, file: u64) -> Result<SnapReader, SnapError>
        requires { file ≤ LAST_FILE }
        ensures start { IfOk result (IsAtStart file) }
        ensures header { IfOk result (λ reader. IsTrue H.meaning.tells
            → HasRead reader ((H.meaning.contents host.old).file file) []) }
        ensures accepted { OnOk result (IsTrue H.meaning.tells
            → header_refusal ((H.meaning.contents host.old).file file) ≡ None) }
        ensures refusal { IfErr result (λ e. IsTrue H.meaning.tells → IsBySnapshot e
            → header_refusal ((H.meaning.contents host.old).file file) ≡ Some e) }
        ensures first { IfErr result (λ e. IsTrue H.meaning.tells → IsBySnapshot e
            → snapshot_refusal ((H.meaning.contents host.old).file file) ≡ Some e) }
        ensures code { IfErr result (λ e. IsBySnapshot e → IsOfHeader e) }
        ensures ran { Ran H.meaning SnapError.Fault Stays host.old host.new result }
    {
        let length = host.len(file)?;
        if length < HEADER_LENGTH as u64 {
            return Err(SnapError::Short);
        }
        let mut bytes = [0; HEADER_LENGTH];
        read_whole(host, file, 0, &mut bytes)?;
        let Header { count, time } = header::decode(&bytes)?;
        if length != snapshot_length(count) {
            return Err(SnapError::Length);
        }
        Ok(SnapReader {
            file,
            count,
            time,
            read: 0,
            last: None,
        })
    }

    /// How many bodies the snapshot has.
    pub fn count(&self) -> u64
        ensures value { result ≡ count_of self.now }
        ensures few { result ≤ most_bodies }
    {
        self.count
    }

    /// The time of the snapshot, in ticks.
    pub fn time(&self) -> u64
        ensures { result ≡ time_of self.now }
    {
        self.time
    }

    /// The next body, or None after the last, or the first field of the next record that is bad. Length
    /// says that the file has become shorter and ends before that record's end. After a refusal the reader
    /// is as it was. It only reads.
    pub fn next<H: Host>(&mut self, host: &mut H) -> Result<Option<Body>, SnapError>
        ensures end { (result ≡ Ok None) ↔ (read_count self.old ≡ count_of self.old) }
        ensures follows { IfOk result (λ found. IfSome found (MayFollow self.old)) }
        ensures moved { IfOk result (λ found. IfSome found (λ body. IsBehind body self.old self.new)) }
        ensures stays { result ≡ Ok None → self.new ≡ self.old }
        ensures refusal { OnErr result (self.new ≡ self.old) }
        ensures code { IfErr result (λ e. IsBySnapshot e → IsOfRecord (read_count self.old) e) }

        // What the file holds now, where the host tells.
        ensures now { IsTrue H.meaning.tells
            → TellsNext self.old ((H.meaning.contents host.old).file (file_of self.old)) result }

        // What the file holds, where the host tells: `bytes` is what it held when `begin` read its header.
        ensures body { (bytes : List ℕ) (bodies : List Body) → IsTrue H.meaning.tells
            → HasRead self.old bytes bodies → IsReadableNow H.meaning self.old bytes host.old
            → IfOk result (λ found. IfSome found (λ body. HasRead self.new bytes (bodies ++ body ∷ []))) }
        ensures whole { (bytes : List ℕ) (bodies : List Body) → HasRead self.old bytes bodies
            → result ≡ Ok None → IsSnapshot bytes bodies (time_of self.old) }
        ensures first { (bytes : List ℕ) (bodies : List Body) → IsTrue H.meaning.tells
            → HasRead self.old bytes bodies → (H.meaning.contents host.old).file (file_of self.old) ≡ bytes
            → IfErr result (λ e. IsBySnapshot e → snapshot_refusal bytes ≡ Some e) }
        ensures shorter { (bytes : List ℕ) (bodies : List Body) → IsTrue H.meaning.tells
            → HasRead self.old bytes bodies → IsReadableNow H.meaning self.old bytes host.old
            → IfErr result (λ e. IsBySnapshot e → (snapshot_refusal bytes ≡ Some e)
            ⊎ (length ((H.meaning.contents host.old).file (file_of self.old))
            < snapshot_length (read_count self.old + 1))) }

        ensures ran { Ran H.meaning SnapError.Fault Stays host.old host.new result }
    {
        if self.read == self.count {
            return Ok(None);
        }
        let mut bytes = [0; RECORD_LENGTH];
        read_whole(host, self.file, snapshot_length(self.read), &mut bytes)?;
        let body = self.follow(&bytes)?;
        self.read += 1;
        self.last = Some(body.id);
        Ok(Some(body))
    }

    /// The body of a record, where it may follow those that were read, or the record's first bad field.
    fn follow(&self, bytes: &[u8; RECORD_LENGTH]) -> Result<Body, SnapError>
        ensures spelled { IfOk result (λ body. bytes.now ≡ body_bytes body) }
        ensures follows { IfOk result (MayFollow self.now) }
        ensures accepted { OnOk result (record_refusal (read_count self.now) (last_id self.now) bytes.now
            ≡ None) }
        ensures refusal { IfErr result (λ e. record_refusal (read_count self.now) (last_id self.now) bytes.now
            ≡ Some e) }
        ensures code { IfErr result (IsOfRecord (read_count self.now)) }
    {
        let fields = Fields::decode(bytes);
        if !self.rises(fields.id) {
            return Err(SnapError::IdOrder(self.read));
        }
        fields.body(self.read)
    }

    /// Whether the id is above that of the body that was read last, if there is one.
    fn rises(&self, id: u64) -> bool
        ensures { IsTrue result ↔ IfSome (last_id self.now) (λ last. last < id) }
    {
        match self.last {
            None => true,
            Some(last) => last < id,
        }
    }
}

/// Fills all of `into` from an offset in the file, or answers Length where the file ends before. It only
/// reads.
fn read_whole<H: Host>(host: &mut H, file: u64, at: u64, into: &mut [u8]) -> Result<(), SnapError>
    requires number { file ≤ LAST_FILE }
    requires offset { at + length into.old < PLACE_LIMIT }
    ensures read { OnOk result (IsTrue H.meaning.tells
        → into.new ≡ readable at (length into.old) ((H.meaning.contents host.old).file file)) }
    ensures short { result ≡ Err SnapError.Length → IsTrue H.meaning.tells
        → length ((H.meaning.contents host.old).file file) < at + length into.old }
    ensures code { IfErr result (λ e. IsBySnapshot e → e ≡ SnapError.Length) }
    ensures ran { Ran H.meaning SnapError.Fault Stays host.old host.new result }
{
    let wanted = into.len();
    let found = host.read_at(file, at, into)?;
    if found < wanted {
        return Err(SnapError::Length);
    }
    Ok(())
}
