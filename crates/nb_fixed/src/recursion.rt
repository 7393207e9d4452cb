//! The force of a list of bodies on a position, by the definition's recursion, but that it goes down to an
//! octant at once where all bodies of the cell lie in it.

ghost use Rattle.std.specs.Prelude.{◌≡◌, ◌*◌, ◌^◌, ◌<◌, ◌≤◌, length, All, IfOk};
ghost use Rattle.nb_model.specs.Limits.{deepest_level, most_bodies, gm_limit, speed_limit};
ghost use Rattle.nb_model.specs.Vector.{plus};
ghost use Rattle.nb_model.specs.Octree.{total_mass};
ghost use Rattle.nb_model.specs.Gravity.{direct_sum, force_on};
ghost use Rattle.nb_model.specs.Valid.{AreInRange, IsInBox, IsBelow, IsValidBody};

use crate::cell::{in_octant, is_same_cell, lie_in_octant, mass_and_centre, octant_at, octants_of};
use crate::monopole::pull;
use crate::opening::opens;
use nb_model::{At, Body, DEEPEST_LEVEL, NoMemory, Params, V3};
use std::alloc::Global;

/// No force at all.
pub const ZERO: V3 = V3 { x: 0, y: 0, z: 0 };

/// The sum of two vectors.
pub fn plus(first: V3, second: V3) -> V3
    requires first { IsBelow (2 * speed_limit) first }
    requires second { IsBelow (2 * speed_limit) second }
    ensures { result ≡ plus first second }
{
    V3 {
        x: first.x + second.x,
        y: first.y + second.y,
        z: first.z + second.z,
    }
}

fn direct_sum(params: &Params, from: &At, bodies: &[Body]) -> V3
    requires params { AreInRange params.now }
    requires from { IsInBox from.now }
    requires each { All IsValidBody bodies.now }
    requires gm { params.now.grav * total_mass bodies.now < gm_limit }
    ensures { result ≡ direct_sum params.now from.now bodies.now }
{
    let mut total = ZERO;
    for body in bodies {
        total = plus(total, pull(params, from, u64::from(body.mass), &body.at));
    }
    total
}

/// The force of the bodies of a cell at this level on a position, in box units a tick.
pub fn force_on(
    alloc: Global,
    params: &Params,
    from: &At,
    level: u32,
    bodies: &[Body],
) -> Result<V3, NoMemory>
    requires params { AreInRange params.now }
    requires from { IsInBox from.now }
    requires level { level ≤ deepest_level }
    requires each { All IsValidBody bodies.now }
    requires count { length bodies.now ≤ most_bodies }
    requires gm { params.now.grav * total_mass bodies.now < gm_limit }
    ensures { IfOk result (λ force. force ≡ force_on params.now from.now level bodies.now) }
{
    if bodies.is_empty() {
        return Ok(ZERO);
    }
    let (mass, centre) = mass_and_centre(bodies);
    let mut level = level;
    'down: loop {
        let inside = is_same_cell(level, from, &bodies[0].at);
        if !opens(params, from, level, &centre, inside) {
            return Ok(pull(params, from, mass, &centre));
        }
        if level == DEEPEST_LEVEL {
            return Ok(direct_sum(params, from, bodies));
        }
        if bodies.len() as u64 <= params.leaf {
            return Ok(direct_sum(params, from, bodies));
        }
        let first = octant_at(level, &bodies[0].at);
        if !lie_in_octant(level, bodies, first) {
            break 'down;
        }
        // The bodies are those of this octant, and the other octants give nothing.
        level += 1;
    }
    let octants = octants_of(alloc, level, bodies)?;
    let mut total = ZERO;
    for octant in 0..8 {
        let part = in_octant(alloc, bodies, &octants, octant)?;
        total = plus(total, force_on(alloc, params, from, level + 1, &part)?);
    }
    Ok(total)
}
