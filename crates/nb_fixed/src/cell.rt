//! The cells of a list of bodies: which body lies in which, and the mass of one with its centre.

ghost use Rattle.std.specs.Prelude.{◌≡◌, ◌≢◌, ◌==◌, ℕ, [], length, map, All, IfOk, ◌<◌, ◌≤◌};
ghost use Rattle.std.specs.List.{list_all};
ghost use Rattle.nb_model.specs.Limits.{deepest_level, most_bodies};
ghost use Rattle.nb_model.specs.Octree.{half_at, octant_at, in_octant, is_same_cell, total_mass, centre_of_mass};
ghost use Rattle.nb_model.specs.Valid.{IsInBox, IsValidBody};

use nb_model::{At, BOX_BITS, Body, NoMemory};
use std::alloc::{AllocError, Global};

/// Whether two positions lie in one cell at this level.
pub fn is_same_cell(level: u32, first: &At, second: &At) -> bool
    requires { level ≤ deepest_level }
    ensures { result ≡ is_same_cell level first.now second.now }
{
    let bits = BOX_BITS - level;
    first.x >> bits == second.x >> bits
        && first.y >> bits == second.y >> bits
        && first.z >> bits == second.z >> bits
}

/// In which half of its cell at this level a coordinate lies: 0 or 1.
fn half_at(level: u32, coordinate: u64) -> u64
    requires { level < deepest_level }
    ensures value { result ≡ half_at level coordinate }
    ensures bound { result < 2 }
{
    (coordinate >> (BOX_BITS - 1 - level)) % 2
}

/// The octant of a position within its cell at this level, from 0 to 7.
pub fn octant_at(level: u32, at: &At) -> u64
    requires { level < deepest_level }
    ensures value { result ≡ octant_at level at.now }
    ensures bound { result < 8 }
{
    4 * half_at(level, at.x) + 2 * half_at(level, at.y) + half_at(level, at.z)
}

/// The octant of each body of a cell at this level.
pub fn octants_of(alloc: Global, level: u32, bodies: &[Body]) -> Result<Vec<u8>, NoMemory>
    requires { level < deepest_level }
    ensures { IfOk result (λ octants. octants.items ≡ map (λ b. octant_at level b.at) bodies.now) }
{
    bodies
        .iter()
        .map(|body| octant_at(level, &body.at) as u8)
        .collect(alloc)
        .map_err(|_: AllocError| NoMemory)
}

/// The bodies of a cell that lie in one of its octants, in their order, where the octant of each is known.
pub fn in_octant(
    alloc: Global,
    bodies: &[Body],
    octants: &[u8],
    octant: u8,
) -> Result<Vec<Body>, NoMemory>
    requires { length octants.now ≡ length bodies.now }
    ensures { (level : ℕ) → octants.now ≡ map (λ b. octant_at level b.at) bodies.now
        → IfOk result (λ part. part.items ≡ in_octant level bodies.now octant) }
{
    // Room for all of them at once, so that no part grows while it is filled.
    let mut part = Vec::with_capacity(alloc, bodies.len())?;
    for i in 0..bodies.len() {
        if octants[i] == octant {
            part.push(bodies[i])?;
        }
    }
    Ok(part)
}

/// Whether all bodies of a cell at this level lie in this one of its octants.
pub fn lie_in_octant(level: u32, bodies: &[Body], octant: u64) -> bool
    requires { level < deepest_level }
    ensures { result ≡ list_all (λ b. octant_at level b.at == octant) bodies.now }
{
    bodies
        .iter()
        .all(|body| octant_at(level, &body.at) == octant)
}

/// The mass of a cell and its centre of mass, rounded down on each axis.
pub fn mass_and_centre(bodies: &[Body]) -> (u64, At)
    requires some { bodies.now ≢ [] }
    requires each { All IsValidBody bodies.now }
    requires count { length bodies.now ≤ most_bodies }
    ensures mass { result.0 ≡ total_mass bodies.now }
    ensures centre { result.1 ≡ centre_of_mass bodies.now }
    ensures in_box { IsInBox result.1 }
{
    let mut mass = 0u64;
    let mut x = 0u128;
    let mut y = 0u128;
    let mut z = 0u128;
    for body in bodies {
        let own = u128::from(body.mass);
        mass += u64::from(body.mass);
        x += own * u128::from(body.at.x);
        y += own * u128::from(body.at.y);
        z += own * u128::from(body.at.z);
    }
    let whole = u128::from(mass);
    let centre = At {
        x: (x / whole) as u64,
        y: (y / whole) as u64,
        z: (z / whole) as u64,
    };
    (mass, centre)
}
