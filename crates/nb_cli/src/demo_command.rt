//! The command `demo`: a run of bodies that are made of a seed, from nothing to its summary.

ghost use Rattle.std.specs.Prelude.{◌≡◌, ◌≢◌, ◌⊎◌, ◌≤◌, ◌^◌, ℕ, IsTrue, IfOk, IfErr, OnOk, List, [], length};
ghost use Rattle.nb_model.specs.declared.body.Body.{Body as Bodies};
ghost use Rattle.nb_model.specs.Leapfrog.{escaped_count};
ghost use Rattle.nb_model.specs.Limits.{most_bodies, most_ticks};
ghost use Rattle.nb_host.specs.declared.host.TheConstants.{LAST_FILE};
ghost use Rattle.nb_host.specs.Crashes.{Stays};
ghost use Rattle.nb_host.specs.Meaning.{IsDurable, Ran};
ghost use Rattle.nb_format.specs.Reader.{count_of, time_of, IsAtStart, HasRead};
ghost use Rattle.nb_format.specs.Snapshot.{IsSnapshot};
ghost use Rattle.nb_journal.specs.Form.{IsFresh};
ghost use Rattle.nb_journal.specs.Offsets.{journal_file};
ghost use Rattle.nb_engine.specs.declared.refusal.Refusal.TheVariants as refusals;
ghost use Rattle.nb_engine.specs.Files.{init_file};
ghost use Rattle.nb_engine.specs.Frame.{RanSession};
ghost use Rattle.nb_engine.specs.Histories.{IsHistory};
ghost use Rattle.nb_engine.specs.Refusal.{NeedsNoCause};
ghost use Rattle.nb_engine.specs.Represents.{snap_of, RepresentsRun};
ghost use Rattle.nb_engine.specs.Sessions.{IsPace, ticks_to, GoLeads};
ghost use Rattle.nb_engine.specs.Start.{Start, HasStart, started, StartLeads};
ghost use Rattle.nb_cli.specs.Once.{list_at};
ghost use Rattle.nb_cli.specs.Make.{made_bodies, made_start, HasMade};
ghost use Rattle.nb_cli.specs.Telling.{IsStartDone, IsGoDone, IsDoneThenSaid, LeadsWithoutErr, LeadsThenSays};
ghost use Rattle.nb_cli.specs.Demo.{IsDemoReady, IsDemoRefused, IsOfDemo, demo_list, coordinate_sum, IsDemoDone, DemoLeads, of_reading_back, index_of_flaw as place_of_error, start_after_make as start_refusal, go_after_start as go_refusal, IsUnlike};

use crate::generator::{Generator, made_params};
use crate::make_command::{MADE_TIME, find_neither, make};
use nb_engine::{
    Done, INIT_FILE, PARAMS_FILE, Pace, Refusal, go, parameters, snapshot_file, start,
};
use nb_format::{SnapError, SnapReader, demo_line, done_line, started_line};
use nb_host::{Channel, Host, PageName};
use nb_journal::{Opened, find};
use nb_model::MOST_TICKS;
use std::alloc::Global;

/// The file of the journal.
const JOURNAL_FILE: u64 = 2;

/// Makes parameters and so many bodies of a seed, starts a run of them and leads it to the time `target`, in
/// ticks. It says the lines of `start` and `go`, each when what it tells is durable, and then a line of its
/// own, with the sum of all coordinates at the end, which it answers. Over a host that doesn't return what was
/// written it is Damaged by the file that doesn't read so.
pub fn demo<H: Host>(
    alloc: Global,
    host: &mut H,
    seed: u64,
    count: u64,
    target: u64,
    pace: Pace,
) -> Result<u128, Refusal>
    requires count { count ≤ most_bodies }
    requires pace { IsPace pace }
    requires durable { IsDurable H.meaning host.old }

    // What each answer says of the files as they were.
    ensures done { OnOk result (IsTrue H.meaning.tells → IsDemoDone H.meaning.crashes.is_honest seed count target
        (H.meaning.contents host.old) (H.meaning.contents host.new)) }
    ensures sum { IfOk result (λ sum. IsTrue H.meaning.tells → sum ≡ coordinate_sum (demo_list seed count target)) }
    ensures cause { IfErr result (λ why. IsTrue H.meaning.tells → NeedsNoCause why
        ⊎ IsDemoRefused (H.meaning.contents host.old).file target why) }
    ensures refusals { IfErr result IsOfDemo }

    // What it leaves at each moment.
    ensures durable { OnOk result (IsDurable H.meaning host.new) }
    ensures unsynced { IfErr result (λ why. IsTrue H.meaning.tells → (NeedsNoCause why → ⊥)
        → H.meaning.tally host.new ≡ H.meaning.tally host.old) }
    ensures ran { RanSession H.meaning (DemoLeads H.meaning.crashes.is_honest seed count target)
        host.old host.new result }
{
    find_nothing(host, target)?;
    make(host, seed, count)?;
    find_made(alloc, host, seed, count)?;
    start_made(alloc, host, count, pace.pages)?;
    let done = lead_made(alloc, host, target, pace)?;
    let sum = sum_coordinates(host, last_snapshot(target), count, target)?;
    let line = demo_line(count, done.gone, sum);
    host.say(Channel::Out, line.bytes())?;
    Ok(sum)
}

/// Finds that no run is started, that neither file that is to be made holds anything, and that the target isn't
/// too far away. It only reads.
fn find_nothing<H: Host>(host: &mut H, target: u64) -> Result<(), Refusal>
    ensures can { OnOk result (IsTrue H.meaning.tells → IsDemoReady (H.meaning.contents host.old).file target) }
    ensures few { OnOk result (target ≤ most_ticks) }
    ensures cause { IfErr result (λ why. IsTrue H.meaning.tells → NeedsNoCause why
        ⊎ IsDemoRefused (H.meaning.contents host.old).file target why) }
    ensures refusals { IfErr result IsOfDemo }
    ensures ran { Ran H.meaning Refusal.Device Stays host.old host.new result }
{
    if let Opened::Made(_) = find(host)? {
        return Err(Refusal::Started);
    }
    find_neither(host)?;
    if target > MOST_TICKS {
        return Err(Refusal::TickLimit(u128::from(target)));
    }
    Ok(())
}

/// Finds that both files read as they were made. It only reads.
fn find_made<H: Host>(alloc: Global, host: &mut H, seed: u64, count: u64) -> Result<(), Refusal>
    requires { count ≤ most_bodies }
    ensures found { OnOk result (IsTrue H.meaning.tells
        → HasStart (H.meaning.contents host.old).file (made_start seed count)) }
    ensures cause { IfErr result (λ why. IsTrue H.meaning.tells
        → HasMade seed count (H.meaning.contents host.old).file → NeedsNoCause why) }
    ensures refusals { IfErr result IsOfDemo }
    ensures ran { Ran H.meaning Refusal.Device Stays host.old host.new result }
{
    let params = match parameters(alloc, host) {
        Ok(params) => params,
        Err(why) => return Err(start_after_make(why)),
    };
    if params != made_params(count) {
        return Err(damaged(PARAMS_FILE, 0));
    }
    find_bodies(host, seed, count)
}

/// Finds that the initial snapshot reads as it was made. It only reads.
fn find_bodies<H: Host>(host: &mut H, seed: u64, count: u64) -> Result<(), Refusal>
    requires { count ≤ most_bodies }
    ensures found { OnOk result (IsTrue H.meaning.tells
        → IsSnapshot ((H.meaning.contents host.old).file init_file) (made_bodies seed count) 0) }
    ensures cause { IfErr result (λ why. NeedsNoCause why
        ⊎ IsUnlike H.meaning init_file (HasMade seed count (H.meaning.contents host.old).file) why) }
    ensures ran { Ran H.meaning Refusal.Device Stays host.old host.new result }
{
    let mut reader = begin_reading(host, INIT_FILE, count, MADE_TIME)?;
    let mut generator = Generator::new(seed);
    for index in 0..count {
        let body = match reader.next(host) {
            Ok(Some(body)) => body,
            Ok(None) => return Err(damaged(INIT_FILE, index)),
            Err(error) => return Err(unread(error, INIT_FILE, index)),
        };
        if body != generator.next_body() {
            return Err(damaged(INIT_FILE, index));
        }
    }
    Ok(())
}

/// Starts the run of so many bodies that were made, and says its line on Out.
fn start_made<H: Host>(alloc: Global, host: &mut H, count: u64, pages: u64) -> Result<(), Refusal>
    requires least { 4 ≤ pages }
    requires most { pages ≤ 2 ^ 18 }
    requires durable { IsDurable H.meaning host.old }
    ensures done { OnOk result (IsTrue H.meaning.tells → IsDoneThenSaid
        (StartLeads H.meaning.crashes.is_honest) IsStartDone
        (H.meaning.contents host.old) (H.meaning.contents host.new)) }
    ensures durable { OnOk result (IsDurable H.meaning host.new) }
    ensures cause { IfErr result (λ why. IsTrue H.meaning.tells → (seed : ℕ)
        → HasMade seed count (H.meaning.contents host.old).file
        → IsFresh ((H.meaning.contents host.old).file journal_file) → NeedsNoCause why) }
    ensures refusals { IfErr result IsOfDemo }
    ensures ran { RanSession H.meaning
        (LeadsWithoutErr (LeadsThenSays (StartLeads H.meaning.crashes.is_honest) IsStartDone)) host.old host.new result }
{
    let begun = match start(alloc, host, pages) {
        Ok(begun) => begun,
        Err(why) => return Err(start_after_make(why)),
    };
    if begun.count != count || begun.time != MADE_TIME {
        return Err(damaged(INIT_FILE, 0));
    }
    let line = started_line(begun.count, begun.time);
    host.say(Channel::Out, line.bytes())?;
    Ok(())
}

/// Leads the run that was started to the target, and says its last line on Out.
fn lead_made<H: Host>(alloc: Global, host: &mut H, target: u64, pace: Pace) -> Result<Done, Refusal>
    requires pace { IsPace pace }
    requires durable { IsDurable H.meaning host.old }
    ensures done { OnOk result (IsTrue H.meaning.tells → IsDoneThenSaid
        (GoLeads H.meaning.crashes.is_honest target) (IsGoDone target)
        (H.meaning.contents host.old) (H.meaning.contents host.new)) }
    ensures gone { IfOk result (λ done. IsTrue H.meaning.tells → (start : Start) → IsHistory (started start)
        → RepresentsRun (started start) (H.meaning.contents host.old)
        → done.gone ≡ escaped_count (list_at target start)) }
    ensures durable { OnOk result (IsDurable H.meaning host.new) }
    ensures cause { IfErr result (λ why. IsTrue H.meaning.tells → (start : Start) → IsHistory (started start)
        → RepresentsRun (started start) (H.meaning.contents host.old)
        → ticks_to target (started start) ≤ most_ticks → NeedsNoCause why) }
    ensures refusals { IfErr result IsOfDemo }
    ensures ran { RanSession H.meaning
        (LeadsWithoutErr (LeadsThenSays (GoLeads H.meaning.crashes.is_honest target) (IsGoDone target)))
        host.old host.new result }
{
    let done = match go(alloc, host, pace, target) {
        Ok(done) => done,
        Err(why) => return Err(go_after_start(why)),
    };
    let line = done_line(done.time, done.ticks, done.gone);
    host.say(Channel::Out, line.bytes())?;
    Ok(done)
}

/// The file of the last list of a run from time 0 to this time: its last snapshot, or, where there is no tick,
/// the initial one.
fn last_snapshot(target: u64) -> u64
    requires { target ≤ most_ticks }
    ensures none { target ≡ 0 → result ≡ init_file }
    ensures some { target ≢ 0 → result ≡ snap_of target }
    ensures there { result ≤ LAST_FILE }
{
    if target == 0 {
        INIT_FILE
    } else {
        snapshot_file(target)
    }
}

/// The sum of all coordinates of the bodies of a snapshot, which has so many at this time. It only reads.
fn sum_coordinates<H: Host>(host: &mut H, file: u64, count: u64, time: u64) -> Result<u128, Refusal>
    requires { file ≤ LAST_FILE }
    ensures sum { IfOk result (λ sum. IsTrue H.meaning.tells → (bodies : List Bodies)
        → IsSnapshot ((H.meaning.contents host.old).file file) bodies time → sum ≡ coordinate_sum bodies) }
    ensures cause { IfErr result (λ why. NeedsNoCause why ⊎ IsUnlike H.meaning file ((bodies : List Bodies)
        × IsSnapshot ((H.meaning.contents host.old).file file) bodies time × (length bodies ≡ count)) why) }
    ensures ran { Ran H.meaning Refusal.Device Stays host.old host.new result }
{
    let mut reader = begin_reading(host, file, count, time)?;
    let mut sum = 0;
    for index in 0..count {
        match reader.next(host) {
            Ok(Some(body)) => {
                sum += u128::from(body.at.x) + u128::from(body.at.y) + u128::from(body.at.z);
            }
            Ok(None) => return Err(damaged(file, index)),
            Err(error) => return Err(unread(error, file, index)),
        }
    }
    Ok(sum)
}

/// The reader of a snapshot that was written with so many bodies at this time. It only reads.
fn begin_reading<H: Host>(
    host: &mut H,
    file: u64,
    count: u64,
    time: u64,
) -> Result<SnapReader, Refusal>
    requires { file ≤ LAST_FILE }
    ensures start { IfOk result (IsAtStart file) }
    ensures count { IfOk result (λ reader. count_of reader ≡ count) }
    ensures time { IfOk result (λ reader. time_of reader ≡ time) }
    ensures header { IfOk result (λ reader. IsTrue H.meaning.tells
        → HasRead reader ((H.meaning.contents host.old).file file) []) }
    ensures cause { IfErr result (λ why. NeedsNoCause why ⊎ IsUnlike H.meaning file ((bodies : List Bodies)
        × IsSnapshot ((H.meaning.contents host.old).file file) bodies time × (length bodies ≡ count)) why) }
    ensures ran { Ran H.meaning Refusal.Device Stays host.old host.new result }
{
    let reader = match SnapReader::begin(host, file) {
        Ok(reader) => reader,
        Err(error) => return Err(unread(error, file, 0)),
    };
    if reader.count() != count || reader.time() != time {
        return Err(damaged(file, 0));
    }
    Ok(reader)
}

/// Why a snapshot can't be read back, at this body, or at its header where that is 0.
fn unread(error: SnapError, file: u64, index: u64) -> Refusal
    ensures { result ≡ of_reading_back error file index }
{
    match error {
        SnapError::Fault => Refusal::Device,
        SnapError::NoMemory => Refusal::NoMemory,
        _ => damaged(file, index),
    }
}

/// The place of a refusal of a snapshot: a body, or 0 for the header.
fn index_of_flaw(error: SnapError) -> u64
    ensures { result ≡ place_of_error error }
{
    match error {
        SnapError::IdOrder(index)
        | SnapError::Mass(index)
        | SnapError::Flag(index)
        | SnapError::Place(index)
        | SnapError::Speed(index) => index,
        _ => 0,
    }
}

/// What a refusal of `start` is where what it starts from was just made.
fn start_after_make(why: Refusal) -> Refusal
    ensures { result ≡ start_refusal why }
{
    match why {
        Refusal::Params(_) => damaged(PARAMS_FILE, 0),
        Refusal::Snapshot(error) => damaged(INIT_FILE, index_of_flaw(error)),
        Refusal::TooHeavy(..) => damaged(INIT_FILE, 0),
        Refusal::Started => damaged(JOURNAL_FILE, 0),
        _ => why,
    }
}

/// What a refusal of `go` is where its run was just started.
fn go_after_start(why: Refusal) -> Refusal
    ensures { result ≡ go_refusal why }
{
    match why {
        Refusal::NotStarted | Refusal::LegOpen(..) | Refusal::TickLimit(_) => {
            damaged(JOURNAL_FILE, 0)
        }
        _ => why,
    }
}

/// A file doesn't read as it was written, at this place.
fn damaged(file: u64, page: u64) -> Refusal
    ensures { result ≡ refusals.Damaged (record { file = file; page = page }) }
{
    Refusal::Damaged(PageName { file, page })
}
