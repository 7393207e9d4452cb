//! The lines as a terminal shows them, with the numbers of small runs and with the greatest numbers.

use crate::*;
use nb_model::{Edge, Params};
use std::test::*;

/// The greatest number of 64 bits, 18446744073709551615.
const MOST: u64 = u64::MAX;

/// The number of the first of the lines that isn't as it is to be.
fn first_other(lines: &[(Text, &str)]) -> Option<usize> {
    lines
        .iter()
        .position(|(text, line)| text.bytes() != line.as_bytes())
}

#[test]
fn lines_on_out(rt: HostRuntime) -> Result<(), Fail> {
    let lines = [
        (started_line(2, 0), "started bodies 2 time 0\n"),
        (tick_line(1, 1, 0), "tick 1 time 1 out 0\n"),
        (tick_line(2, 0, 0), "tick 2 time 0 out 0\n"),
        (done_line(0, 2, 0), "done time 0 ticks 2 out 0\n"),
        (done_line(200, 200, 0), "done time 200 ticks 200 out 0\n"),
        (
            folder_line(3, 3, 5, 1, 0),
            "folder time 3 ticks 3 target 5 bodies 1 out 0\n",
        ),
        (once_line(0, 0, 0), "once time 0 ticks 0 out 0\n"),
        (once_line(1, 1, 1), "once time 1 ticks 1 out 1\n"),
        (made_line(2), "made bodies 2\n"),
        (
            demo_line(2000, 10, 3298534883328000),
            "demo bodies 2000 out 10 sum 3298534883328000\n",
        ),
    ];
    assert_eq!(rt; first_other(&lines), None);
    Ok(())
}

#[test]
fn greatest_lines_on_out(rt: HostRuntime) -> Result<(), Fail> {
    let lines = [
        (
            tick_line(MOST, MOST, MOST),
            "tick 18446744073709551615 time 18446744073709551615 out 18446744073709551615\n",
        ),
        (
            folder_line(MOST, 1099511627776, MOST, 16777216, 16777216),
            "folder time 18446744073709551615 ticks 1099511627776 target 18446744073709551615 \
             bodies 16777216 out 16777216\n",
        ),
        (
            demo_line(MOST, MOST, u128::MAX),
            "demo bodies 18446744073709551615 out 18446744073709551615 \
             sum 340282366920938463463374607431768211455\n",
        ),
    ];
    assert_eq!(rt; first_other(&lines), None);
    Ok(())
}

#[test]
fn lines_of_parameters(rt: HostRuntime) -> Result<(), Fail> {
    let params = Params {
        grav: 1_000_000_000,
        theta_num: 1,
        theta_den: 2,
        soft: 1,
        leaf: 8,
        every: 100,
        edge: Edge::Open,
    };
    let wrapped = Params {
        edge: Edge::Wrap,
        ..params
    };
    let lines = [
        (param_line(&params, 0), "grav = 1000000000\n"),
        (param_line(&params, 1), "theta_num = 1\n"),
        (param_line(&params, 2), "theta_den = 2\n"),
        (param_line(&params, 3), "soft = 1\n"),
        (param_line(&params, 4), "leaf = 8\n"),
        (param_line(&params, 5), "every = 100\n"),
        (param_line(&params, 6), "edge = open\n"),
        (param_line(&wrapped, 6), "edge = wrap\n"),
    ];
    assert_eq!(rt; first_other(&lines), None);
    Ok(())
}

#[test]
fn lines_for_parameters(rt: HostRuntime) -> Result<(), Fail> {
    let lines = [
        (
            params_text(&ParamsError::Long),
            "nbody: params: longer than 65536 bytes\n",
        ),
        (
            params_text(&ParamsError::Line(2)),
            "nbody: params: line 2\n",
        ),
        (
            params_text(&ParamsError::Twice(3)),
            "nbody: params: line 3 repeats a name\n",
        ),
        (
            params_text(&ParamsError::Range(5)),
            "nbody: params: line 5 is out of range\n",
        ),
        (
            params_text(&ParamsError::Missing(0)),
            "nbody: params: grav is missing\n",
        ),
        (
            params_text(&ParamsError::Missing(5)),
            "nbody: params: every is missing\n",
        ),
    ];
    assert_eq!(rt; first_other(&lines), None);
    Ok(())
}

#[test]
fn lines_for_a_snapshot(rt: HostRuntime) -> Result<(), Fail> {
    let lines = [
        (snapshot_text(&SnapError::Short), "nbody: snapshot: short\n"),
        (
            snapshot_text(&SnapError::Unfinished),
            "nbody: snapshot: unfinished\n",
        ),
        (snapshot_text(&SnapError::Magic), "nbody: snapshot: magic\n"),
        (snapshot_text(&SnapError::Count), "nbody: snapshot: count\n"),
        (snapshot_text(&SnapError::Zeros), "nbody: snapshot: zeros\n"),
        (
            snapshot_text(&SnapError::Length),
            "nbody: snapshot: length\n",
        ),
        (
            snapshot_text(&SnapError::IdOrder(1)),
            "nbody: snapshot: id order at body 1\n",
        ),
        (
            snapshot_text(&SnapError::Mass(2)),
            "nbody: snapshot: mass at body 2\n",
        ),
        (
            snapshot_text(&SnapError::Flag(10)),
            "nbody: snapshot: flag at body 10\n",
        ),
        (
            snapshot_text(&SnapError::Place(99)),
            "nbody: snapshot: place at body 99\n",
        ),
        (
            snapshot_text(&SnapError::Speed(0)),
            "nbody: snapshot: speed at body 0\n",
        ),
    ];
    assert_eq!(rt; first_other(&lines), None);
    Ok(())
}

#[test]
fn lines_for_refusals(rt: HostRuntime) -> Result<(), Fail> {
    let lines = [
        (words_text(), "nbody: the words are not a command\n"),
        (
            heavy_text(268435456, 4294967296),
            "nbody: grav 268435456 times mass 4294967296 is not below 2^60\n",
        ),
        (not_started_text(), "nbody: not started\n"),
        (already_text(), "nbody: already started\n"),
        (leg_text(5, 3), "nbody: the leg to 5 is open at time 3\n"),
        (
            limit_text(1099511627777),
            "nbody: 1099511627777 ticks are more than 2^40\n",
        ),
        (
            limit_text(u128::MAX),
            "nbody: 340282366920938463463374607431768211455 ticks are more than 2^40\n",
        ),
        (there_text(), "nbody: params or init.nbs is there\n"),
        (many_text(4097), "nbody: 4097 bodies are more than 4096\n"),
        (device_text(), "nbody: a device fault\n"),
        (damaged_text(2, 4096), "nbody: damaged file 2 at 4096\n"),
        (memory_text(), "nbody: no memory\n"),
    ];
    assert_eq!(rt; first_other(&lines), None);
    Ok(())
}
