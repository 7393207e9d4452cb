//! Parameter texts that were written by hand, with what is read of each.

use super::*;
use nb_model::{Edge, Params};
use std::test::*;

/// The parameters of the worked texts.
const WORKED: Params = Params {
    grav: 1000000000,
    theta_num: 1,
    theta_den: 2,
    soft: 1,
    leaf: 8,
    every: 100,
    edge: Edge::Open,
};

const LEAST: Params = Params {
    grav: 0,
    theta_num: 0,
    theta_den: 1,
    soft: 1,
    leaf: 1,
    every: 1,
    edge: Edge::Open,
};

const GREATEST: Params = Params {
    grav: 1152921504606846975,
    theta_num: 32768,
    theta_den: 32768,
    soft: 1099511627775,
    leaf: 32,
    every: 1099511627776,
    edge: Edge::Wrap,
};

/// Texts that give parameters.
const ACCEPTED: [(&str, Params); 8] = [
    (
        "grav = 1000000000\ntheta_num = 1\ntheta_den = 2\nsoft = 1\nleaf = 8\nevery = 100\n\
        edge = open\n",
        WORKED,
    ),
    (
        "\tedge=wrap \r\nevery = 1099511627776\nleaf = 32\nsoft = 1099511627775\n\
        theta_den = 32768\ntheta_num = 32768\ngrav = 1152921504606846975",
        GREATEST,
    ),
    (
        "grav = 1000000000\ntheta_num = 1\ntheta_den = 2\nsoft = 1\nleaf = 8\nevery = 100\n",
        WORKED,
    ),
    (
        "grav = 1000000000\ntheta_num = 1\ntheta_den = 2\nsoft = 1\nleaf = 8\nevery = 100",
        WORKED,
    ),
    (
        "# a comment\r\n\tgrav\t=\t1000000000\t\r\n theta_num=1 \r\ntheta_den = 2\r\n\
        soft =1\r\n\r\nleaf= 8\r\nevery \t = 100\r\n",
        WORKED,
    ),
    (
        "\n\nevery=00000000000000000100\nleaf=8\n  # grav = x\nsoft=1\n\
        theta_den=2\ntheta_num=1\ngrav=1000000000\n\n",
        WORKED,
    ),
    (
        "grav = 0\ntheta_num = 0\ntheta_den = 1\nsoft = 1\nleaf = 1\nevery = 1\n",
        LEAST,
    ),
    (
        "grav = 1152921504606846975\ntheta_num = 32768\ntheta_den = 32768\n\
        soft = 1099511627775\nleaf = 32\nevery = 1099511627776\nedge = wrap\n",
        GREATEST,
    ),
];

/// Texts that are refused.
const REFUSED: [(&str, ParamsError); 58] = [
    // the edge
    (
        "grav = 1000000000\ntheta_num = 1\ntheta_den = 2\nsoft = 1\nleaf = 8\nevery = 100\n\
        edge = both\n",
        ParamsError::Line(7),
    ),
    (
        "grav = 1000000000\ntheta_num = 1\ntheta_den = 2\nsoft = 1\nleaf = 8\nevery = 100\n\
        edge = wrap\nedge = wrap\n",
        ParamsError::Twice(8),
    ),
    ("edge = open\nedge = wrap\n", ParamsError::Twice(2)),
    ("edge = wrap\nedge = both\n", ParamsError::Line(2)),
    ("edge = wrap\nleaf = 33\n", ParamsError::Range(2)),
    ("edge = wrap\n", ParamsError::Missing(0)),
    ("edge = 1", ParamsError::Line(1)),
    ("edge =", ParamsError::Line(1)),
    ("edge", ParamsError::Line(1)),
    ("edge = Open", ParamsError::Line(1)),
    ("edges = open", ParamsError::Line(1)),
    ("grav = open", ParamsError::Line(1)),
    // the worked texts, with one line changed or left out
    (
        "grav = 1000000000\ntheta_num = 1\ntheta_den = 2\nsoft = 1\nleaf = 8\n",
        ParamsError::Missing(5),
    ),
    (
        "grav = 1000000000\ntheta_num = 1\ngrav = 2\nsoft = 1\nleaf = 8\nevery = 100\n",
        ParamsError::Twice(3),
    ),
    (
        "grav = 1000000000\ntheta_num = 1\ntheta_den = 2\nsoft = 1\nleaf = 33\nevery = 100\n",
        ParamsError::Range(5),
    ),
    (
        "grav = 1000000000\ntheta = 1\ntheta_den = 2\nsoft = 1\nleaf = 8\nevery = 100\n",
        ParamsError::Line(2),
    ),
    // nothing is set, or the first that is missing
    ("", ParamsError::Missing(0)),
    ("\n", ParamsError::Missing(0)),
    (" \t\r\n# grav = 1\n", ParamsError::Missing(0)),
    ("grav = 1\nevery = 1", ParamsError::Missing(1)),
    (
        "every = 1\nsoft = 1\ntheta_num = 1\ngrav = 1\n",
        ParamsError::Missing(2),
    ),
    // no setting
    ("=", ParamsError::Line(1)),
    ("grav", ParamsError::Line(1)),
    ("grav =", ParamsError::Line(1)),
    ("= 1", ParamsError::Line(1)),
    ("grav 1", ParamsError::Line(1)),
    ("grav == 1", ParamsError::Line(1)),
    ("grav = 1 2", ParamsError::Line(1)),
    ("grav = 1 # a comment", ParamsError::Line(1)),
    ("grav = -1", ParamsError::Line(1)),
    ("grav = +1", ParamsError::Line(1)),
    ("grav = 0x1", ParamsError::Line(1)),
    ("Grav = 1", ParamsError::Line(1)),
    ("gravity = 1", ParamsError::Line(1)),
    ("theta num = 1", ParamsError::Line(1)),
    ("\0", ParamsError::Line(1)),
    ("grav = 1\0", ParamsError::Line(1)),
    ("\u{b}grav = 1", ParamsError::Line(1)),
    ("grav = 1\rsoft = 1", ParamsError::Line(1)),
    ("grav = 1\n\n#\nsoft\n", ParamsError::Line(4)),
    ("grav = 000000000000000000001", ParamsError::Line(1)),
    // out of range
    ("grav = 18446744073709551616", ParamsError::Range(1)),
    ("grav = 99999999999999999999", ParamsError::Range(1)),
    ("grav = 1152921504606846976", ParamsError::Range(1)),
    ("theta_num = 32769", ParamsError::Range(1)),
    ("theta_den = 0", ParamsError::Range(1)),
    ("theta_den = 32769", ParamsError::Range(1)),
    ("soft = 0", ParamsError::Range(1)),
    ("soft = 1099511627776", ParamsError::Range(1)),
    ("leaf = 0", ParamsError::Range(1)),
    ("every = 0", ParamsError::Range(1)),
    ("every = 1099511627777", ParamsError::Range(1)),
    // the first faulty line, and within it the first fault
    ("leaf = 8\nleaf = 8\n", ParamsError::Twice(2)),
    ("leaf = 8\n\nleaf = 33\n", ParamsError::Twice(3)),
    ("leaf = 8\nleaf = x\n", ParamsError::Line(2)),
    ("leaf = 33\nsoft\n", ParamsError::Range(1)),
    ("leaf = 8\nsoft\nleaf = 8\n", ParamsError::Line(2)),
    (
        "leaf = 8\nleaf = 99999999999999999999\n",
        ParamsError::Twice(2),
    ),
];

#[test]
fn reads_parameters(rt: HostRuntime) -> Result<(), Fail> {
    for (text, params) in ACCEPTED {
        assert_eq!(rt; read_params(text.as_bytes()), Ok(params), "in {text:?}");
    }
    for (text, error) in REFUSED {
        assert_eq!(rt; read_params(text.as_bytes()), Err(error), "in {text:?}");
    }
    let comment = vec![in rt.alloc(); b'#'; 65537]?;
    assert_eq!(rt; read_params(&comment), Err(ParamsError::Long));
    assert_eq!(rt; read_params(&comment[1..]), Err(ParamsError::Missing(0)));
    Ok(())
}

/// Texts, with the numbers that they spell.
const NUMBERS: [(&str, Option<u64>); 12] = [
    ("0", Some(0)),
    ("007", Some(7)),
    ("9876543210", Some(9876543210)),
    ("18446744073709551615", Some(18446744073709551615)),
    ("00000000000000000001", Some(1)),
    ("", None),
    ("18446744073709551616", None),
    ("000000000000000000001", None),
    ("-5", None),
    ("+5", None),
    ("5 ", None),
    ("5a", None),
];

#[test]
fn reads_numbers(rt: HostRuntime) {
    for (text, number) in NUMBERS {
        assert_eq!(rt; number_of(text.as_bytes()), number, "in {text:?}");
    }
}
