//! The line of one parameter, in its canonical form. It is laid down for commands that aren't built yet:
//! `show` is to say it, and `demo` to write it.
#![tactic(auto, using(crate::proofs::Decimals::digit_counts))]

ghost use Rattle.std.specs.Prelude.{◌≡◌, ◌<◌, ◌≤◌, length, slice_index};
ghost use Rattle.nb_format.specs.ParamsText.{parameters, edge_number, edge_text as text_of_edge, name_at, values_of, canonical_line};

use crate::Text;
use nb_model::{Edge, Params};

/// The number of the edge among the parameters.
const EDGE: u8 = 6;

/// The name of the parameter of this number.
pub(crate) fn name_at(which: u8) -> &'static [u8]
    requires { which ≤ edge_number }
    ensures value { result.now ≡ name_at which }
    ensures short { length result.now ≤ 9 }
{
    match which {
        0 => b"grav",
        1 => b"theta_num",
        2 => b"theta_den",
        3 => b"soft",
        4 => b"leaf",
        5 => b"every",
        _ => b"edge",
    }
}

/// How the edge is written.
fn edge_text(edge: Edge) -> &'static [u8]
    ensures value { result.now ≡ text_of_edge edge }
    ensures short { length result.now ≤ 4 }
{
    match edge {
        Edge::Open => b"open",
        Edge::Wrap => b"wrap",
    }
}

/// The value of the one of the six of this number.
fn value_at(params: &Params, which: u8) -> u64
    requires { which < length parameters }
    ensures { result ≡ slice_index (values_of params.now) which }
{
    match which {
        0 => params.grav,
        1 => params.theta_num,
        2 => params.theta_den,
        3 => params.soft,
        4 => params.leaf,
        _ => params.every,
    }
}

/// The canonical line of the parameter of this number, from 0 to 6 in the order of `Params`.
pub fn param_line(params: &Params, which: u8) -> Text
    requires { which ≤ edge_number }
    ensures { result ≡ canonical_line params.now which }
{
    let line = Text::of(name_at(which)).then(b" = ");
    if which == EDGE {
        line.then(edge_text(params.edge)).then(b"\n")
    } else {
        line.number(value_at(params, which)).then(b"\n")
    }
}
