//! The command `once`: the bodies of the initial snapshot at another time.

ghost use Rattle.std.specs.Prelude.{◌≡◌, ◌≢◌, ◌⊎◌, ℕ, ◌+◌, ◌-◌, ◌<◌, ◌≤◌, IsTrue, IfOk, IfErr, OnOk, length, map, replicate, All};
ghost use Rattle.std.specs.List.Sorted.{IsStrictlyIncreasing};
ghost use Rattle.nb_model.specs.Octree.{total_mass as mass_of};
ghost use Rattle.nb_model.specs.Leapfrog.{escaped_count as count_of_escaped, steps};
ghost use Rattle.nb_model.specs.Legs.{directions_to};
ghost use Rattle.nb_model.specs.Limits.{most_bodies};
ghost use Rattle.nb_model.specs.Valid.{AreInRange, IsValidBody, IsValidBodies};
ghost use Rattle.nb_host.specs.Image.{FileBecomes};
ghost use Rattle.nb_host.specs.Meaning.{Over, RanSyncing, IsDurable};
ghost use Rattle.nb_format.specs.Writer.{IsFinishedAs};
ghost use Rattle.nb_engine.specs.Refusal.{NeedsNoCause};
ghost use Rattle.nb_engine.specs.Start.{Start, start_refusal as refusal_of_start};
ghost use Rattle.nb_cli.specs.Once.{once_file, most_once_bodies, once_ticks, list_at, once_refusal as refusal_of_once, IsOnceReady, IsOfOnce, IsOnceRefused};
ghost use Rattle.nb_cli.specs.Answer.{once_syncs};
ghost use Rattle.nb_cli.specs.OnceAnswer.{TellsOnce, BecomesAny, OnceLeads};

use crate::init_file::read_bodies;
use nb_engine::{Done, INIT_FILE, Refusal, parameters, survey};
use nb_fixed::plain_tick;
use nb_format::{Fresh, SnapReader};
use nb_host::{Host, HostError};
use nb_model::{Body, GM_LIMIT, MOST_TICKS, NoMemory, Params, Way};
use std::alloc::Global;

/// The file that `once` writes.
const ONCE_FILE: u64 = 8;

/// `once` takes at most so many bodies.
const MOST_ONCE_BODIES: u64 = 4096;

/// Brings the bodies of the initial snapshot to the time `target` and writes their snapshot. It says nothing.
pub fn once<H: Host>(alloc: Global, host: &mut H, target: u64) -> Result<Done, Refusal>
    // What each answer says of the files as they were.
    ensures done { IfOk result (λ done. IsTrue H.meaning.tells
        → (start : Start) × IsOnceReady (H.meaning.contents host.old).file target start × TellsOnce target start done
        × FileBecomes once_file (IsFinishedAs (list_at target start) target)
        (H.meaning.contents host.old) (H.meaning.contents host.new)) }
    ensures cause { IfErr result (λ why. IsTrue H.meaning.tells
        → NeedsNoCause why ⊎ IsOnceRefused (H.meaning.contents host.old).file target why) }
    ensures refusals { IfErr result IsOfOnce }

    // What it leaves at each moment: all as it was, until it comes so far as to write.
    ensures durable { OnOk result (IsDurable H.meaning host.new) }
    ensures unsynced { IfErr result (λ why. (NeedsNoCause why → ⊥)
        → H.meaning.tally host.new ≡ H.meaning.tally host.old) }
    ensures ran { RanSyncing H.meaning once_syncs Refusal.Device
        (OnceLeads (H.meaning.contents host.old).file target) host.old host.new result }
{
    let params = parameters(alloc, host)?;
    let reader = SnapReader::begin(host, INIT_FILE)?;
    let time = reader.time();
    let count = reader.count();
    if count > MOST_ONCE_BODIES {
        survey(host, reader)?;
        return Err(Refusal::TooMany(count));
    }
    let mut bodies = read_bodies(alloc, host, reader)?;
    if let Some(why) = once_refusal(&params, &bodies, time, target) {
        return Err(why);
    }
    let leg = leg_to(time, target);
    advance(alloc, &params, &mut bodies, leg)?;
    let gone = escaped_count(&bodies);
    write_bodies(host, &bodies, target)?;
    Ok(Done {
        time: target,
        ticks: leg.ticks,
        gone,
    })
}

/// The mass of all bodies.
fn total_mass(bodies: &[Body]) -> u64
    requires { length bodies.now ≤ most_bodies }
    ensures { result ≡ mass_of bodies.now }
{
    let mut mass = 0;
    for body in bodies {
        mass += u64::from(body.mass);
    }
    mass
}

/// Why no run can begin with these bodies, if none can: they are too heavy.
fn start_refusal(params: &Params, bodies: &[Body]) -> Option<Refusal>
    requires { length bodies.now ≤ most_bodies }
    ensures { result ≡ refusal_of_start params.now bodies.now }
{
    let mass = total_mass(bodies);
    if u128::from(params.grav) * u128::from(mass) >= u128::from(GM_LIMIT) {
        Some(Refusal::TooHeavy(params.grav, mass))
    } else {
        None
    }
}

/// Why `once` doesn't take these bodies from this time to the target, if it doesn't: no run can begin with
/// them, or the target is too far away. That they aren't too many was looked at before they were read.
fn once_refusal(params: &Params, bodies: &[Body], time: u64, target: u64) -> Option<Refusal>
    requires { length bodies.now ≤ most_once_bodies }
    ensures { result ≡ refusal_of_once target
        (record { params = params.now; bodies = bodies.now; time = time }) }
{
    let heavy = start_refusal(params, bodies);
    if heavy.is_some() {
        return heavy;
    }
    let ticks = time.abs_diff(target);
    if ticks > MOST_TICKS {
        return Some(Refusal::TickLimit(u128::from(ticks)));
    }
    None
}

/// So many ticks in one direction.
#[derive(Clone, Copy)]
struct Leg {
    way: Way,
    ticks: u64,
}

/// The ticks from one time to another.
fn leg_to(from: u64, to: u64) -> Leg
    ensures ways { replicate result.ticks result.way ≡ directions_to from to }
    ensures ticks { result.ticks ≡ (to - from) + (from - to) }
{
    if from <= to {
        Leg {
            way: Way::Forward,
            ticks: to - from,
        }
    } else {
        Leg {
            way: Way::Back,
            ticks: from - to,
        }
    }
}

/// Takes so many ticks. The memory that it takes doesn't grow with their number.
fn advance(alloc: Global, params: &Params, bodies: &mut Vec<Body>, leg: Leg) -> Result<(), NoMemory>
    requires params { AreInRange params.now }
    requires valid { IsValidBodies params.now bodies.old.items }
    ensures valid { OnOk result (IsValidBodies params.now bodies.new.items) }
    ensures taken { OnOk result
        (bodies.new.items ≡ steps params.now (replicate leg.ticks leg.way) bodies.old.items) }
{
    for _ in 0..leg.ticks {
        plain_tick(alloc, params, bodies, leg.way)?;
    }
    Ok(())
}

/// How many bodies have left the box.
fn escaped_count(bodies: &[Body]) -> u64
    ensures { result ≡ count_of_escaped bodies.now }
{
    bodies.iter().filter(|body| body.out).count() as u64
}

/// Writes the snapshot of the bodies at this time into the file of `once`, whatever it held. After a
/// refusal that file may be in part.
fn write_bodies<H: Host>(host: &mut H, bodies: &[Body], time: u64) -> Result<(), HostError>
    requires each { All IsValidBody bodies.now }
    requires ids { IsStrictlyIncreasing (map (λ b. b.id) bodies.now) }
    requires count { length bodies.now ≤ most_bodies }
    ensures written { OnOk result
        (Over H.meaning (FileBecomes once_file (IsFinishedAs bodies.now time)) host.old host.new) }
    ensures durable { OnOk result (IsDurable H.meaning host.new) }
    ensures ran { RanSyncing H.meaning once_syncs HostError.Fault (FileBecomes once_file BecomesAny)
        host.old host.new result }
{
    host.cut(ONCE_FILE, 0)?;
    host.sync()?;
    let mut filling = Fresh::new(ONCE_FILE, bodies.len() as u64, time).begin(host)?;
    for body in bodies {
        filling = filling.add(host, body)?;
    }
    filling.close(host)?;
    Ok(())
}
