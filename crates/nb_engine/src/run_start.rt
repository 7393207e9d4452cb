//! The session `start`, which begins a run.

ghost use Rattle.std.specs.Prelude.{◌≡◌, ◌⊎◌, ◌^◌, ◌≤◌, ℕ, List, [], ◌∷◌, Contains, IsTrue, IfOk, IfErr, OnOk};
ghost use Rattle.nb_model.specs.declared.body.Body.{Body as Bodies};
ghost use Rattle.nb_host.specs.Crashes.{Stays};
ghost use Rattle.nb_host.specs.Meaning.{IsDurable, Ran};
ghost use Rattle.nb_format.specs.Reader.{IsAtStart, HasRead, count_of, time_of};
ghost use Rattle.nb_format.specs.Snapshot.{IsSnapshot};
ghost use Rattle.nb_journal.specs.Form.{IsFresh};
ghost use Rattle.nb_journal.specs.Offsets.{journal_file};
ghost use Rattle.nb_cache.specs.InStep.{IsInStep};
ghost use Rattle.nb_cache.specs.View.{seen};
ghost use Rattle.nb_cache.specs.Writes.{RanCached};
ghost use Rattle.nb_record.specs.Order.{by_key, sorted_by, HoldsBodies};
ghost use Rattle.nb_tick.specs.Slots.{slot_of, drifted_file};
ghost use Rattle.nb_engine.specs.Files.{init_file};
ghost use Rattle.nb_engine.specs.Frame.{RanSession};
ghost use Rattle.nb_engine.specs.Reading.{census_of, IsCensus, start_plan, IsPlan, IsPlanned};
ghost use Rattle.nb_engine.specs.Refusal.{NeedsNoCause, of_second_reading};
ghost use Rattle.nb_engine.specs.declared.refusal.Refusal.TheVariants as refusals;
ghost use Rattle.nb_engine.specs.Snapshots.{IsPageDamaged};
ghost use Rattle.nb_engine.specs.Start.{Start, IsStartReady, IsStartRefused, RepresentsStart, TellsStart, StartLeads, init_record_name, IsCopyEnd, IsReadPlace, IsLaidPlace, IsOfStart};

use crate::files::{INIT_FILE, READ_FILE};
use crate::init_file::{Census, survey};
use crate::params_file::parameters;
use crate::refusal::Refusal;
use crate::workspace::cache_of;
use nb_cache::Cache;
use nb_format::{SnapError, SnapReader};
use nb_host::{Host, PageName};
use nb_journal::{Opened, find, prepare, start_gate};
use nb_model::{GM_LIMIT, Params, V3};
use nb_order::{ByKey, Sorter, push_body, reorder};
use nb_tick::Slot;
use std::alloc::Global;

/// The kick of a body of which none is known, in box units a tick.
const AT_REST: V3 = V3 { x: 0, y: 0, z: 0 };

/// With what a run began.
#[derive(Clone, Copy, PartialEq, Eq, Debug)]
pub struct Begun {
    /// How many bodies there are.
    pub count: u64,
    /// The time, in ticks.
    pub time: u64,
}

/// What a run is to begin with. Its bodies aren't in memory.
#[derive(Clone, Copy)]
pub(crate) struct StartPlan {
    pub(crate) params: Params,
    pub(crate) time: u64,
    pub(crate) census: Census,
}

/// Starts a run from the parameters and the initial snapshot, with so many pages in memory. The bodies are laid
/// down first, and then the journal's gate opens. It says nothing.
pub fn start<H: Host>(alloc: Global, host: &mut H, pages: u64) -> Result<Begun, Refusal>
    requires least { 4 ≤ pages }
    requires most { pages ≤ 2 ^ 18 }
    requires durable { IsDurable H.meaning host.old }
    ensures begun { IfOk result (λ begun. IsTrue H.meaning.tells
        → (start : Start) × IsStartReady (H.meaning.contents host.old).file start × TellsStart start begun
        × RepresentsStart start (H.meaning.contents host.new)) }
    ensures durable { OnOk result (IsDurable H.meaning host.new) }
    ensures cause { IfErr result (λ why. IsTrue H.meaning.tells → NeedsNoCause why
        ⊎ IsStartRefused (H.meaning.contents host.old).file why) }
    ensures refusals { IfErr result IsOfStart }
    ensures unsynced { IfErr result (λ why. IsTrue H.meaning.tells → (NeedsNoCause why → ⊥)
        → H.meaning.tally host.new ≡ H.meaning.tally host.old) }
    ensures ran { RanSession H.meaning (StartLeads H.meaning.crashes.is_honest) host.old host.new result }
{
    let plan = plan_run(alloc, host)?;
    let mut cache = cache_of(alloc, pages)?;
    let mut sorter = Sorter::new(alloc);
    let Census { count, gone, .. } = plan.census;
    let ready = prepare(host, &plan.params, count, plan.time, gone)?;
    lay_bodies(host, &mut cache, &mut sorter, &plan)?;
    start_gate(host, ready)?;
    Ok(Begun {
        count,
        time: plan.time,
    })
}

/// What a run is to begin with, where none is started and one can begin. It only reads.
fn plan_run<H: Host>(alloc: Global, host: &mut H) -> Result<StartPlan, Refusal>
    ensures plan { IfOk result IsPlan }
    ensures ready { IfOk result (λ plan. IsTrue H.meaning.tells
        → (start : Start) × IsStartReady (H.meaning.contents host.old).file start × (plan ≡ start_plan start)) }
    ensures cause { IfErr result (λ why. IsTrue H.meaning.tells → NeedsNoCause why
        ⊎ IsStartRefused (H.meaning.contents host.old).file why) }
    ensures refusals { IfErr result IsOfStart }
    ensures ran { Ran H.meaning Refusal.Device Stays host.old host.new result }
{
    find_none(host)?;
    let params = parameters(alloc, host)?;
    let reader = SnapReader::begin(host, INIT_FILE)?;
    let time = reader.time();
    let census = survey(host, reader)?;
    if u128::from(params.grav) * u128::from(census.mass) >= u128::from(GM_LIMIT) {
        return Err(Refusal::TooHeavy(params.grav, census.mass));
    }
    Ok(StartPlan {
        params,
        time,
        census,
    })
}

/// Finds that no run is started. It only reads.
fn find_none<H: Host>(host: &mut H) -> Result<(), Refusal>
    ensures fresh { OnOk result (IsTrue H.meaning.tells
        → IsFresh ((H.meaning.contents host.old).file journal_file)) }
    ensures cause { IfErr result (λ why. IsTrue H.meaning.tells → NeedsNoCause why
        ⊎ IsStartRefused (H.meaning.contents host.old).file why) }
    ensures refusals { IfErr result IsOfStart }
    ensures ran { Ran H.meaning Refusal.Device Stays host.old host.new result }
{
    match find(host)? {
        Opened::Fresh => Ok(()),
        Opened::Made(_) => Err(Refusal::Started),
    }
}

/// Lays the bodies of the initial snapshot into the first slot, in Morton order, without kicks.
fn lay_bodies<H: Host>(
    host: &mut H,
    cache: &mut Cache,
    sorter: &mut Sorter,
    plan: &StartPlan,
) -> Result<(), Refusal>
    requires plan { IsPlan plan.now }
    requires written { cache.old.unwritten ≡ [] }
    requires in_step { IsInStep H.meaning cache.old host.old }
    ensures laid { OnOk result (IsTrue H.meaning.tells → (bodies : List Bodies)
        → IsPlanned plan.now bodies ((H.meaning.contents host.old).file init_file)
        → HoldsBodies ((H.meaning.contents host.new).file (slot_of 0)) (sorted_by by_key bodies)) }
    ensures cause { IfErr result (λ why. NeedsNoCause why ⊎ IsPageDamaged H.meaning (IsLaidPlace plan.now.census.count) (λ bodies.
        IsPlanned plan.now bodies ((H.meaning.contents host.old).file init_file)) why) }
    ensures ran { RanCached H.meaning Refusal.Device (slot_of 0 ∷ drifted_file ∷ []) cache.old host.old
        cache.new host.new result }
{
    let census = read_again(host, cache, plan)?;
    reorder(
        host,
        cache,
        sorter,
        &ByKey,
        READ_FILE,
        Slot::of(0).file(),
        census.count,
    )?;
    cache.flush(host)?;
    Ok(())
}

/// Reads the initial snapshot again, into a file of bodies, and answers what it counted of them. It has to be
/// what was planned with.
fn read_again<H: Host>(host: &mut H, cache: &mut Cache, plan: &StartPlan) -> Result<Census, Refusal>
    requires plan { IsPlan plan.now }
    requires written { cache.old.unwritten ≡ [] }
    requires in_step { IsInStep H.meaning cache.old host.old }
    ensures same { IfOk result (λ census. census ≡ plan.now.census) }
    ensures read { OnOk result (IsTrue H.meaning.tells → (bodies : List Bodies)
        → IsPlanned plan.now bodies ((H.meaning.contents host.old).file init_file)
        → HoldsBodies (seen H.meaning cache.new host.new drifted_file) bodies) }
    ensures cause { IfErr result (λ why. NeedsNoCause why ⊎ IsPageDamaged H.meaning (IsReadPlace plan.now.census.count) (λ bodies.
        IsPlanned plan.now bodies ((H.meaning.contents host.old).file init_file)) why) }
    ensures ran { RanCached H.meaning Refusal.Device (drifted_file ∷ []) cache.old host.old
        cache.new host.new result }
{
    cache.empty(host, READ_FILE)?;
    let reader = begin_again(host, plan)?;
    let census = copy_bodies(host, cache, reader)?;
    if census != plan.census {
        return Err(damaged_init(0));
    }
    Ok(census)
}

/// Reads the header of the initial snapshot again, which has to tell what was planned with. It only reads.
fn begin_again<H: Host>(host: &mut H, plan: &StartPlan) -> Result<SnapReader, Refusal>
    ensures start { IfOk result (IsAtStart init_file) }
    ensures count { IfOk result (λ reader. count_of reader ≡ plan.now.census.count) }
    ensures time { IfOk result (λ reader. time_of reader ≡ plan.now.time) }
    ensures header { IfOk result (λ reader. IsTrue H.meaning.tells
        → HasRead reader ((H.meaning.contents host.old).file init_file) []) }
    ensures cause { IfErr result (λ why. NeedsNoCause why ⊎ IsPageDamaged H.meaning (λ page. page ≡ init_record_name 0) (λ bodies.
        IsPlanned plan.now bodies ((H.meaning.contents host.old).file init_file)) why) }
    ensures ran { Ran H.meaning Refusal.Device Stays host.old host.new result }
{
    let reader = match SnapReader::begin(host, INIT_FILE) {
        Ok(reader) => reader,
        Err(error) => return Err(second_refusal(error, 0)),
    };
    if reader.count() != plan.census.count || reader.time() != plan.time {
        return Err(damaged_init(0));
    }
    Ok(reader)
}

/// Reads on to the end of the initial snapshot, adds its bodies to a file without kicks, and counts them.
fn copy_bodies<H: Host>(
    host: &mut H,
    cache: &mut Cache,
    mut reader: SnapReader,
) -> Result<Census, Refusal>
    requires start { IsAtStart init_file reader }
    requires unwritten { (file : ℕ) → Contains cache.old.unwritten file → file ≡ drifted_file }
    requires in_step { IsInStep H.meaning cache.old host.old }
    ensures counted { IfOk result IsCensus }
    ensures copied { IfOk result (λ census. IsTrue H.meaning.tells
        → HasRead reader ((H.meaning.contents host.old).file init_file) []
        → seen H.meaning cache.old host.old drifted_file ≡ []
        → (bodies : List Bodies) × (census ≡ census_of bodies)
        × IsSnapshot ((H.meaning.contents host.old).file init_file) bodies (time_of reader)
        × HoldsBodies (seen H.meaning cache.new host.new drifted_file) bodies) }
    ensures cause { IfErr result (λ why. NeedsNoCause why ⊎ IsPageDamaged H.meaning (IsCopyEnd H.meaning reader cache.old host.old) (λ bodies.
        HasRead reader ((H.meaning.contents host.old).file init_file) []
        × (seen H.meaning cache.old host.old drifted_file ≡ [])
        × ((time : ℕ) × IsSnapshot ((H.meaning.contents host.old).file init_file) bodies time)) why) }
    ensures ran { RanCached H.meaning Refusal.Device (drifted_file ∷ []) cache.old host.old
        cache.new host.new result }
{
    let mut census = Census::NONE;
    loop {
        let body = match reader.next(host) {
            Ok(Some(body)) => body,
            Ok(None) => return Ok(census),
            Err(error) => return Err(second_refusal(error, census.count)),
        };
        push_body(host, cache, READ_FILE, census.count, &body, &AT_REST)?;
        census = census.with(&body);
    }
}

/// Why a second reading of the initial snapshot is refused at a body, or at the header where that is 0: the
/// device failed, memory is wanting, or it isn't what it was.
fn second_refusal(error: SnapError, index: u64) -> Refusal
    ensures { result ≡ of_second_reading error index }
{
    match error {
        SnapError::Fault => Refusal::Device,
        SnapError::NoMemory => Refusal::NoMemory,
        _ => damaged_init(index),
    }
}

/// The initial snapshot isn't what it was when it was read first, from this body on.
fn damaged_init(index: u64) -> Refusal
    ensures { result ≡ refusals.Damaged (record { file = init_file; page = index }) }
{
    Refusal::Damaged(PageName {
        file: INIT_FILE,
        page: index,
    })
}
