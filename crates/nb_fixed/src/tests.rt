//! Values worked out by hand.

ghost use Rattle.std.specs.Prelude.{◌≡◌, ℕ, ◌+◌, ◌<◌, ◌≤◌, ◌^◌, true, length, map, All};
ghost use Rattle.std.specs.List.Sorted.{IsStrictlyIncreasing};
ghost use Rattle.nb_model.specs.Octree.{total_mass};
ghost use Rattle.nb_model.specs.Valid.{AreInRange, IsValidBody, IsValidBodies};

use crate::cell::mass_and_centre;
use crate::distance::nearest_displacement;
use crate::leapfrog::kick;
use crate::{opens, plain_tick, pull, root, trunc_div};
use nb_model::{At, Body, Edge, Params, V3, Way};
use std::alloc::Global;
use std::process::Abort;
use std::test::Fail;

/// Half the side of the box.
const HALF: u64 = 549755813888;

/// The parameters of the tests, with these of them changed.
fn params(edge: Edge, grav: u64, theta_num: u64, theta_den: u64, leaf: u64) -> Params
    requires grav { grav < 2 ^ 60 }
    requires theta_num { theta_num ≤ 32768 }
    requires some_theta_den { 1 ≤ theta_den }
    requires theta_den { theta_den ≤ 32768 }
    requires some_leaf { 1 ≤ leaf }
    requires leaf { leaf ≤ 32 }
    ensures { AreInRange result }
{
    Params {
        grav,
        theta_num,
        theta_den,
        soft: 1,
        leaf,
        every: 100,
        edge,
    }
}

/// An unescaped body on the middle line of the x axis, or on its edge where `y` and `z` are 0.
fn body(id: u64, mass: u32, at: At, x: i64) -> Body {
    Body {
        id,
        mass,
        out: false,
        at,
        v: V3 { x, y: 0, z: 0 },
    }
}

/// A position so far along the middle line of the x axis from the middle of the box.
fn on_line(x: u64) -> At
    requires { x < 2 ^ 20 }
{
    At {
        x: HALF + x,
        y: HALF,
        z: HALF,
    }
}

fn are_valid_bodies(bodies: &[Body]) -> bool
    ensures { result ≡ true → All IsValidBody bodies.now }
{
    for body in bodies {
        if !body.is_valid() {
            return false;
        }
    }
    true
}

fn ids_rise(bodies: &[Body]) -> bool
    ensures { result ≡ true → IsStrictlyIncreasing (map (λ b. b.id) bodies.now) }
{
    for i in 1..bodies.len() {
        if bodies[i].id <= bodies[i - 1].id {
            return false;
        }
    }
    true
}

fn total_mass(bodies: &[Body]) -> u64
    requires { length bodies.now ≤ 4 }
    ensures value { result ≡ total_mass bodies.now }
{
    let mut mass = 0u64;
    for body in bodies {
        mass += u64::from(body.mass);
    }
    mass
}

/// Whether a list of at most four bodies is valid.
fn are_valid(params: &Params, bodies: &[Body]) -> bool
    ensures { result ≡ true → IsValidBodies params.now bodies.now }
{
    if bodies.len() > 4 || !are_valid_bodies(bodies) || !ids_rise(bodies) {
        return false;
    }
    u128::from(params.grav) * u128::from(total_mass(bodies)) < 1 << 60
}

/// The velocities along x after the first half kick.
fn kicks(rt: &impl Abort, alloc: Global, params: &Params, bodies: &[Body]) -> Result<Vec<i64>, Fail>
    requires { AreInRange params.now }
{
    assert!(rt; are_valid(params, bodies));
    let kicked = kick(alloc, params, Way::Forward, bodies)?;
    let mut along = Vec::new(alloc);
    for body in &kicked {
        along.push(body.v.x)?;
    }
    Ok(along)
}

#[test]
fn pulls_round_toward_zero(rt: HostRuntime) -> Result<(), Fail> {
    let alloc = rt.alloc();
    let bodies = [body(1, 1, on_line(0), 0), body(2, 1000, on_line(1000), 0)];
    let along = kicks(
        &rt,
        alloc,
        &params(Edge::Open, 1_000_000_000, 1, 2, 8),
        &bodies,
    )?;
    assert_eq!(rt; along.as_slice(), [999_999, -999].as_slice());
    Ok(())
}

#[test]
fn cells_are_taken_whole_or_opened(rt: HostRuntime) -> Result<(), Fail> {
    let alloc = rt.alloc();
    let bodies = [
        body(1, 1, At { x: 0, y: 0, z: 0 }, 0),
        body(
            2,
            1,
            At {
                x: 1_048_577,
                y: 0,
                z: 0,
            },
            0,
        ),
        body(
            3,
            1,
            At {
                x: 1_048_580,
                y: 0,
                z: 0,
            },
            0,
        ),
    ];
    let grav = 1_000_200_000_000_000;
    let cases = [
        (params(Edge::Open, grav, 1, 1, 1), 1819, "taken at level 20"),
        (params(Edge::Open, grav, 0, 1, 1), 1818, "never taken"),
        (params(Edge::Open, grav, 1, 1, 8), 1818, "one leaf"),
    ];
    for (params, want, why) in cases {
        let along = kicks(&rt, alloc, &params, &bodies)?;
        assert_eq!(rt; along.len(), 3);
        assert_eq!(rt; along[0], want, "{why}");
    }
    Ok(())
}

#[test]
fn ticks_of_two_bodies(rt: HostRuntime) -> Result<(), Fail> {
    let params = params(Edge::Open, 1_000_000_000, 1, 2, 8);
    let apart = [body(1, 1, on_line(0), 0), body(2, 1000, on_line(1000), 0)];
    let crossed = [
        body(1, 1, on_line(999_999), 999_998),
        body(2, 1000, on_line(1), -999),
    ];
    let together = [body(1, 5, on_line(0), 0), body(2, 5, on_line(0), 0)];
    let cases = [
        (Way::Forward, apart, crossed, "they fall on each other"),
        (Way::Back, crossed, apart, "the same, undone"),
        (Way::Forward, together, together, "both in one leaf"),
    ];
    for (way, before, after, why) in cases {
        let mut bodies = before.to_vec(rt.alloc())?;
        assert!(rt; are_valid(&params, &bodies), "{why}");
        assert_eq!(rt;
            plain_tick(rt.alloc(), &params, &mut bodies, way)?,
            0,
            "{why}"
        );
        assert_eq!(rt; bodies.as_slice(), after.as_slice(), "{why}");
    }
    Ok(())
}

#[test]
fn two_bodies_in_one_deepest_cell(rt: HostRuntime) -> Result<(), Fail> {
    let params = params(Edge::Open, 1_000_000_000, 1, 2, 1);
    let together = [body(1, 5, on_line(0), 0), body(2, 5, on_line(0), 0)];
    for way in [Way::Forward, Way::Back] {
        let mut bodies = together.to_vec(rt.alloc())?;
        assert!(rt; are_valid(&params, &bodies));
        assert_eq!(rt; plain_tick(rt.alloc(), &params, &mut bodies, way)?, 0);
        assert_eq!(rt; bodies.as_slice(), together.as_slice());
    }
    Ok(())
}

#[test]
fn a_body_leaves_the_box(rt: HostRuntime) -> Result<(), Fail> {
    let params = params(Edge::Open, 1_000_000_000, 1, 2, 8);
    for (x, way) in [(2 * HALF - 1, Way::Forward), (0, Way::Back)] {
        let before = body(7, 3, At { x, y: 0, z: 0 }, 1);
        let mut bodies = [before].to_vec(rt.alloc())?;
        assert!(rt; are_valid(&params, &bodies));
        assert_eq!(rt; plain_tick(rt.alloc(), &params, &mut bodies, way)?, 1);
        assert_eq!(rt; bodies.len(), 1);
        assert_eq!(rt;
            bodies[0],
            Body {
                out: true,
                ..before
            },
            "at {x}"
        );
    }
    Ok(())
}

/// The box wraps, and a tick and its opposite are tried.
fn ticks_there_and_back(
    rt: &impl Abort,
    alloc: Global,
    before: &[Body],
    after: &[Body],
) -> Result<(), Fail> {
    let params = params(Edge::Wrap, 1_000_000_000, 1, 2, 8);
    let mut bodies = before.to_vec(alloc)?;
    assert!(rt; are_valid(&params, &bodies));
    assert_eq!(rt; plain_tick(alloc, &params, &mut bodies, Way::Forward)?, 0);
    assert_eq!(rt; bodies.as_slice(), after);
    assert_eq!(rt; plain_tick(alloc, &params, &mut bodies, Way::Back)?, 0);
    assert_eq!(rt; bodies.as_slice(), before);
    Ok(())
}

#[test]
fn ticks_across_the_border(rt: HostRuntime) -> Result<(), Fail> {
    let alloc = rt.alloc();
    let corner = At { x: 0, y: 0, z: 0 };
    let last = At {
        x: 2 * HALF - 1,
        ..corner
    };
    ticks_there_and_back(&rt, alloc, &[body(7, 3, last, 1)], &[body(7, 3, corner, 1)])?;
    let five = At { x: 5, y: 5, z: 5 };
    let fast = 1_099_511_627_775;
    ticks_there_and_back(
        &rt,
        alloc,
        &[body(7, 3, five, fast)],
        &[body(7, 3, At { x: 4, ..five }, fast)],
    )
}

#[test]
fn two_bodies_pull_across_the_border(rt: HostRuntime) -> Result<(), Fail> {
    let alloc = rt.alloc();
    let at = |x: u64| At {
        x,
        y: HALF,
        z: HALF,
    };
    let before = [
        body(1, 1, at(0), 0),
        body(2, 1000, at(1_099_511_626_776), 0),
    ];
    let after = [
        body(1, 1, at(1_099_510_627_777), -999_998),
        body(2, 1000, at(1_099_511_627_775), 999),
    ];
    let params = params(Edge::Wrap, 1_000_000_000, 1, 2, 8);
    let along = kicks(&rt, alloc, &params, &before)?;
    assert_eq!(rt; along.as_slice(), [-999_999, 999].as_slice());
    ticks_there_and_back(&rt, alloc, &before, &after)
}

#[test]
fn a_body_is_too_fast_for_a_box_that_wraps(rt: HostRuntime) -> Result<(), Fail> {
    let params = params(Edge::Wrap, 1_000_000_000, 1, 2, 8);
    for way in [Way::Forward, Way::Back] {
        let before = body(7, 3, At { x: 5, y: 5, z: 5 }, 1_099_511_627_776);
        let mut bodies = [before].to_vec(rt.alloc())?;
        assert!(rt; are_valid(&params, &bodies));
        assert_eq!(rt; plain_tick(rt.alloc(), &params, &mut bodies, way)?, 1);
        assert_eq!(rt;
            bodies.as_slice(),
            [Body {
                out: true,
                ..before
            }]
            .as_slice()
        );
    }
    Ok(())
}

#[test]
fn half_a_box_is_minus_half_both_ways(rt: HostRuntime) {
    let from = At {
        x: 0,
        y: HALF,
        z: 0,
    };
    let to = At {
        x: HALF,
        y: 0,
        z: HALF + 1,
    };
    let half = HALF as i64;
    for (edge, x, y, z) in [
        (Edge::Open, half, -half, half + 1),
        (Edge::Wrap, -half, -half, 1 - half),
    ] {
        assert_eq!(rt; nearest_displacement(edge, &from, &to), V3 { x, y, z });
    }
}

/// The greatest GM.
const MOST: u64 = (1 << 60) - 1;
/// An eighth of it.
const EIGHTH: i64 = 144115188075855871;
/// The last coordinate of the box.
const LAST: u64 = 2 * HALF - 1;

/// Pulls that are hard to round: the edge, the constant of gravity with the mass and the softening, two
/// positions and the half kick. Along each axis that is floor(GM * |d| / (q * root of q)) with the sign of d,
/// where d is the difference and q the softened square, reckoned with whole numbers of any length.
#[rattlefmt::skip]
const PULLS: [(Edge, [u64; 3], [u64; 3], [u64; 3], [i64; 3]); 31] = [
    // Half a box on each axis, from both sides: too far for any GM.
    (Edge::Wrap, [MOST, 1, 1], [0, HALF, 0], [HALF, 0, HALF], [0, 0, 0]),
    (Edge::Wrap, [MOST, 1, 1], [HALF, 0, HALF], [0, HALF, 0], [0, 0, 0]),
    // Across the border, and the same in an open box.
    (Edge::Wrap, [MOST, 1, 1], [0, 7, 7], [LAST - 536870911, 7, 7], [-3, 0, 0]),
    (Edge::Open, [MOST, 1, 1], [0, 7, 7], [LAST - 536870911, 7, 7], [0, 0, 0]),
    // The border between two neighbours: 2^60 - 1 over 3.
    (Edge::Wrap, [MOST, 1, 1], [LAST, LAST, 7], [0, 0, 7], [384307168202282325, 384307168202282325, 0]),
    // No distance, and the least: all, a half and an eighth of the greatest GM.
    (Edge::Open, [MOST, 1, 1], [5, 5, 5], [5, 5, 5], [0, 0, 0]),
    (Edge::Open, [MOST, 1, 1], [5, 5, 5], [6, 5, 5], [576460752303423487, 0, 0]),
    (Edge::Open, [MOST, 1, 1], [5, 5, 5], [4, 4, 4], [-EIGHTH, -EIGHTH, -EIGHTH]),
    // The greatest mass of a body.
    (Edge::Open, [268435456, 4294967295, 1], [5, 5, 5], [5, 6, 5], [0, 576460752169205760, 0]),
    // About 2^30, the root of the limit of GM: 2^60 - 1 over 2^60 - 2^31 + 2, and over more than it.
    (Edge::Open, [1, MOST, 1], [0, 0, 0], [1073741823, 0, 0], [1, 0, 0]),
    (Edge::Open, [1, MOST, 1], [0, 0, 0], [1073741824, 0, 0], [0, 0, 0]),
    (Edge::Open, [1, MOST, 1], [0, 0, 0], [1073741823, 1073741823, 1073741823], [0, 0, 0]),
    // 2^60 - 1 over 2^58 + 1.
    (Edge::Open, [1, MOST, 1], [0, 0, 536870912], [0, 0, 0], [0, 0, -3]),
    // The greatest softenings: the distance over the root is below 1, or the square above GM.
    (Edge::Open, [1, MOST, 1073741823], [0, 0, 0], [46340, 0, 0], [0, 0, 0]),
    (Edge::Open, [1, MOST, 1073741824], [0, 0, 0], [1, 0, 0], [0, 0, 0]),
    (Edge::Open, [1, MOST, LAST], [0, 0, 0], [1, 0, 0], [0, 0, 0]),
    // The square is 1000001 and its root the distance: 1, 7 and 1000 times the square, and one less.
    (Edge::Open, [1, 1000001, 1], [0, 0, 0], [1000, 0, 0], [1, 0, 0]),
    (Edge::Open, [1, 1000000, 1], [0, 0, 0], [1000, 0, 0], [0, 0, 0]),
    (Edge::Open, [1, 7000007, 1], [1000, 0, 0], [0, 0, 0], [-7, 0, 0]),
    (Edge::Open, [1, 7000006, 1], [1000, 0, 0], [0, 0, 0], [-6, 0, 0]),
    (Edge::Open, [1, 1000001000, 1], [1000, 0, 0], [0, 0, 0], [-1000, 0, 0]),
    (Edge::Open, [1, 1000000999, 1], [1000, 0, 0], [0, 0, 0], [-999, 0, 0]),
    // Half a quotient further.
    (Edge::Open, [1, 1000501000, 1], [1000, 0, 0], [0, 0, 0], [-1000, 0, 0]),
    // The root is 500: two axes are whole at once, and one less.
    (Edge::Open, [1, 1250005, 1], [0, 400, 9], [300, 0, 9], [3, -4, 0]),
    (Edge::Open, [1, 1250004, 1], [0, 400, 9], [300, 0, 9], [2, -3, 0]),
    // The square is one less than that of 2000001: 250000 times the square, and one less.
    (Edge::Open, [1, 1000001000000000000, 2000], [0, 0, 0], [2000000, 0, 0], [250000, 0, 0]),
    (Edge::Open, [1, 1000000999999999999, 2000], [0, 0, 0], [2000000, 0, 0], [249999, 0, 0]),
    // 2^20 times a square, and one less: the quotient has more bits than the floor of a ratio.
    (Edge::Open, [1, 1152919305585688576, 1], [0, 0, 0], [1048575, 0, 0], [1048576, 0, 0]),
    (Edge::Open, [1, 1152919305585688575, 1], [0, 0, 0], [1048575, 0, 0], [1048575, 0, 0]),
    // The ratio has no bit to be shifted down, and three.
    (Edge::Open, [1, 576460752303423487, 1], [0, 0, 0], [8192, 8191, 3], [3037695502, 3037324689, 1112437]),
    (Edge::Open, [1, 576460752303423487, 1], [0, 0, 0], [16384, 16383, 3], [759344792, 759298445, 139040]),
];

/// The half kick of such numbers, where they are in their ranges.
fn pull_of(edge: Edge, numbers: [u64; 3], from: [u64; 3], to: [u64; 3]) -> Option<V3> {
    let [grav, mass, soft] = numbers;
    let from = At {
        x: from[0],
        y: from[1],
        z: from[2],
    };
    let to = At {
        x: to[0],
        y: to[1],
        z: to[2],
    };
    let gm = u128::from(grav) * u128::from(mass);
    if grav >= 1 << 60 || gm >= 1 << 60 || soft == 0 || soft >= 1 << 40 {
        return None;
    }
    if !from.is_in_box() || !to.is_in_box() {
        return None;
    }
    let params = Params {
        grav,
        theta_num: 1,
        theta_den: 2,
        soft,
        leaf: 8,
        every: 100,
        edge,
    };
    Some(pull(&params, &from, mass, &to))
}

#[test]
fn pulls_are_rounded_toward_zero(rt: HostRuntime) {
    for (edge, numbers, from, to, [x, y, z]) in PULLS {
        let kick = pull_of(edge, numbers, from, to);
        assert_eq!(rt;
            kick,
            Some(V3 { x, y, z }),
            "{edge:?} {numbers:?} {from:?} {to:?}"
        );
    }
}

#[test]
fn a_centre_is_rounded_down(rt: HostRuntime) {
    let bodies = [
        body(1, 1, At { x: 0, y: 0, z: 0 }, 0),
        body(2, 2, At { x: 1, y: 0, z: 0 }, 0),
    ];
    assert!(rt; are_valid_bodies(&bodies));
    let (mass, centre) = mass_and_centre(&bodies);
    assert_eq!(rt; mass, 3);
    assert_eq!(rt; centre, At { x: 0, y: 0, z: 0 });
}

#[test]
fn cells_that_open(rt: HostRuntime) {
    let from = At { x: 0, y: 0, z: 0 };
    let wide = params(Edge::Open, 1, 32768, 1, 8);
    let unit = params(Edge::Open, 1, 1, 1, 8);
    let far = At {
        x: 1 << 30,
        y: 0,
        z: 0,
    };
    assert!(rt; opens(&wide, &from, 0, &far, true), "it holds the body");
    assert!(rt; !opens(&wide, &from, 0, &far, false), "far enough");
    assert!(rt;
        opens(
            &unit,
            &from,
            20,
            &At {
                x: 1_048_576,
                y: 0,
                z: 0
            },
            false
        ),
        "just as far as its side"
    );
    assert!(rt;
        !opens(
            &unit,
            &from,
            20,
            &At {
                x: 1_048_577,
                y: 0,
                z: 0
            },
            false
        ),
        "one unit further"
    );
    assert!(rt;
        opens(&wide, &from, 21, &from, false),
        "its centre on the body"
    );
    let across = At {
        x: 1_099_510_579_200,
        y: 0,
        z: 0,
    };
    let wrap = params(Edge::Wrap, 1, 1, 1, 8);
    assert!(rt;
        opens(&wrap, &from, 20, &across, false),
        "near across the border"
    );
    assert!(rt;
        !opens(&unit, &from, 20, &across, false),
        "far in an open box"
    );
}

#[test]
fn roots(rt: HostRuntime) {
    let cases = [
        (0, 0),
        (1, 1),
        (2, 1),
        (3, 1),
        (4, 2),
        (999_999_999_999, 999_999),
        (1_000_000_000_000, 1_000_000),
        (18_446_744_065_119_617_024, 4_294_967_294),
        (18_446_744_065_119_617_025, 4_294_967_295),
        (18_446_744_073_709_551_615, 4_294_967_295),
        (18_446_744_073_709_551_616, 4_294_967_296),
        (1_208_925_819_614_629_174_706_175, 1_099_511_627_775),
        (1_208_925_819_614_629_174_706_176, 1_099_511_627_776),
        (1_208_925_819_614_629_174_706_177, 1_099_511_627_776),
        (u128::MAX, u64::MAX),
    ];
    for (q, want) in cases {
        assert_eq!(rt; root(q), want, "the root of {q}");
    }
}

#[test]
fn quotients_go_toward_zero(rt: HostRuntime) {
    for (n, d, want) in [
        (7, 2, 3),
        (-7, 2, -3),
        (-1, 2, 0),
        (0, 5, 0),
        (i128::MIN, 1, i128::MIN),
    ] {
        assert_eq!(rt; trunc_div(n, d), want, "{n} over {d}");
    }
}
