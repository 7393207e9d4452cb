//! One tick of a list of bodies, forward or back: a half kick, a whole drift, a half kick.

ghost use Rattle.std.specs.Prelude.{◌≡◌, ◌*◌, ◌<◌, ◌≤◌, length, All, IfOk, OnOk, OnErr, true, false, if◌then◌else◌};
ghost use Rattle.nb_model.specs.Limits.{gm_limit, kick_limit, speed_limit, most_bodies};
ghost use Rattle.nb_model.specs.Vector.{zero_vector};
ghost use Rattle.nb_model.specs.Gravity.{force_on};
ghost use Rattle.nb_model.specs.Octree.{total_mass};
ghost use Rattle.nb_model.specs.Leapfrog.{unescaped, escaped_count, changed, accelerate, kick, is_coordinate, is_position, position_of, vector_of, wrapped, drifted, drift_of, drift_body, drift, step};
ghost use Rattle.nb_model.specs.Valid.{AreInRange, IsInBox, IsBelow, IsValidBody, IsBodyAfterKick, IsValidBodies};

use crate::recursion::{force_on, plus};
use nb_model::{At, BOX_SIDE, Body, Edge, NoMemory, Params, V3, Way};
use std::alloc::{AllocError, Global};

fn unescaped(alloc: Global, bodies: &[Body]) -> Result<Vec<Body>, NoMemory>
    ensures { IfOk result (λ inside. inside.items ≡ unescaped bodies.now) }
{
    bodies
        .iter()
        .copied()
        .filter(|body| !body.out)
        .collect(alloc)
        .map_err(|_: AllocError| NoMemory)
}

/// What becomes of a vector by a change: forward it gains it, and back it loses it.
fn changed(way: Way, vector: V3, change: V3) -> V3
    requires vector { IsBelow (2 * speed_limit) vector }
    requires change { IsBelow (2 * speed_limit) change }
    ensures { result ≡ changed way vector change }
{
    match way {
        Way::Forward => plus(vector, change),
        Way::Back => V3 {
            x: vector.x - change.x,
            y: vector.y - change.y,
            z: vector.z - change.z,
        },
    }
}

/// An unescaped body after a half kick, in box units a tick: forward it gains it, and back it loses it.
pub fn accelerate(way: Way, kick: &V3, body: Body) -> Body
    requires body { IsValidBody body }
    requires present { body.out ≡ false }
    requires kick { IsBelow kick_limit kick.now }
    ensures { result ≡ accelerate way kick.now body }
{
    Body {
        v: changed(way, body.v, *kick),
        ..body
    }
}

/// A body of a valid list after its half kick, where `inside` are the list's unescaped bodies.
fn kicked_body(
    alloc: Global,
    params: &Params,
    way: Way,
    inside: &[Body],
    body: Body,
) -> Result<Body, NoMemory>
    requires params { AreInRange params.now }
    requires each { All IsValidBody inside.now }
    requires count { length inside.now ≤ most_bodies }
    requires gm { params.now.grav * total_mass inside.now < gm_limit }
    requires body { IsValidBody body }
    ensures { IfOk result (λ kicked. kicked ≡ accelerate way
        (if body.out then zero_vector else force_on params.now body.at 0 inside.now) body) }
{
    if body.out {
        return Ok(body);
    }
    let force = force_on(alloc, params, &body.at, 0, inside)?;
    Ok(accelerate(way, &force, body))
}

/// The bodies of a valid list after their half kicks.
pub fn kick(
    alloc: Global,
    params: &Params,
    way: Way,
    bodies: &[Body],
) -> Result<Vec<Body>, NoMemory>
    requires params { AreInRange params.now }
    requires valid { IsValidBodies params.now bodies.now }
    ensures { IfOk result (λ kicked. kicked.items ≡ kick params.now way bodies.now) }
{
    let inside = unescaped(alloc, bodies)?;
    let mut kicked = Vec::with_capacity(alloc, bodies.len())?;
    for body in bodies {
        kicked.push(kicked_body(alloc, params, way, &inside, *body)?)?;
    }
    Ok(kicked)
}

fn is_coordinate(c: i64) -> bool
    ensures { result ≡ is_coordinate c }
{
    0 <= c && c < BOX_SIDE as i64
}

fn is_position(r: &V3) -> bool
    ensures { result ≡ is_position r.now }
{
    is_coordinate(r.x) && is_coordinate(r.y) && is_coordinate(r.z)
}

fn position_of(r: &V3) -> At
    requires { is_position r.now ≡ true }
    ensures { result ≡ position_of r.now }
{
    At {
        x: r.x as u64,
        y: r.y as u64,
        z: r.z as u64,
    }
}

fn vector_of(at: &At) -> V3
    requires { IsInBox at.now }
    ensures value { result ≡ vector_of at.now }
    ensures bound { IsBelow (2 * speed_limit) result }
{
    V3 {
        x: at.x as i64,
        y: at.y as i64,
        z: at.z as i64,
    }
}

/// The coordinates that these have in a box that wraps: each modulo the side.
fn wrapped(r: &V3) -> V3
    ensures value { result ≡ wrapped r.now }
    ensures position { is_position result ≡ true }
{
    V3 {
        x: r.x.rem_euclid(BOX_SIDE as i64),
        y: r.y.rem_euclid(BOX_SIDE as i64),
        z: r.z.rem_euclid(BOX_SIDE as i64),
    }
}

/// Where a drift by this displacement brings a position, if anywhere.
fn drifted(edge: Edge, at: &At, by: V3) -> Option<At>
    requires at { IsInBox at.now }
    requires by { IsBelow (2 * speed_limit) by }
    ensures { result ≡ drifted edge at.now by }
{
    let there = plus(vector_of(at), by);
    match edge {
        Edge::Open => is_position(&there).then(|| position_of(&there)),
        Edge::Wrap => by.is_below(BOX_SIDE).then(|| position_of(&wrapped(&there))),
    }
}

/// By how much a tick's drift moves a body: by its velocity forward, and by minus its velocity back.
fn drift_of(way: Way, v: V3) -> V3
    requires { IsBelow (2 * speed_limit) v }
    ensures value { result ≡ drift_of way v }
    ensures bound { IsBelow (2 * speed_limit) result }
{
    match way {
        Way::Forward => v,
        Way::Back => V3 {
            x: -v.x,
            y: -v.y,
            z: -v.z,
        },
    }
}

/// A body after its drift: moved, or out where the drift leads nowhere in the box. One that is out stays.
pub fn drift_body(params: &Params, way: Way, body: Body) -> Body
    requires { IsBodyAfterKick body }
    ensures { result ≡ drift_body params.now way body }
{
    if body.out {
        return body;
    }
    match drifted(params.edge, &body.at, drift_of(way, body.v)) {
        Some(at) => Body { at, ..body },
        None => Body { out: true, ..body },
    }
}

fn drift(params: &Params, way: Way, bodies: &mut [Body])
    requires { All IsBodyAfterKick bodies.old }
    ensures { bodies.new ≡ drift params.now way bodies.old }
{
    for body in bodies.iter_mut() {
        *body = drift_body(params, way, *body);
    }
}

/// One tick, forward or back: the list becomes the definition's, and the answer is how many of its bodies
/// are out. Where memory is wanting the list is as it was.
pub fn plain_tick(
    alloc: Global,
    params: &Params,
    bodies: &mut Vec<Body>,
    way: Way,
) -> Result<u64, NoMemory>
    requires params { AreInRange params.now }
    requires valid { IsValidBodies params.now bodies.old.items }
    ensures tick { OnOk result (bodies.new.items ≡ step params.now way bodies.old.items) }
    ensures stays_valid { OnOk result (IsValidBodies params.now bodies.new.items) }
    ensures escaped { IfOk result (λ count. count ≡ escaped_count bodies.new.items) }
    ensures refused { OnErr result (bodies.new.items ≡ bodies.old.items) }
{
    let mut drifted = kick(alloc, params, way, bodies)?;
    drift(params, way, &mut drifted);
    let kicked = kick(alloc, params, way, &drifted)?;
    let escaped = kicked.iter().filter(|body| body.out).count() as u64;
    *bodies = kicked;
    Ok(escaped)
}
