//! The reader of a parameter text. It takes no memory, and reads each byte a few times at most.

ghost use Rattle.std.specs.Prelude.{◌≡◌, ℕ, ◌<◌, ◌&&◌, nat_le, IfOk, IfErr, IfSome, Some, None, ◌∷◌, length, if◌then◌else◌};
ghost use Rattle.std.specs.Option.{option_copied};
ghost use Rattle.nb_model.specs.Valid.{AreInRange};
ghost use Rattle.nb_format.specs.ParamsText.{params_of, params_from, with_line, with_lines, no_values, lines_of, is_in_range, parameters, NamesParameter};
ghost use Rattle.nb_format.specs.ParamsReading.{lines_from, SetsParameter};

use crate::ParamsError;
use crate::params_line::{Line, find, read_line};
use nb_model::{BOX_SIDE, Edge, GM_LIMIT, MOST_TICKS, Params};

/// The most bytes of a parameter text.
pub const MOST_TEXT: usize = 65536;

/// The byte that ends a line.
const LINE_END: u8 = b'\n';

/// How many parameters are numbers.
const NUMBERS: usize = 6;

/// The greatest numerator and denominator of the opening angle.
const MOST_THETA: u64 = 32768;

/// The most bodies of a leaf.
const MOST_LEAF: u64 = 32;

/// What was read so far.
#[derive(Clone, Copy)]
pub(crate) struct Values {
    /// The values of the six, by their numbers.
    numbers: [Option<u64>; NUMBERS],
    /// The edge.
    edge: Option<Edge>,
}

/// The text before its first line end, and what lies behind it, where there is one.
fn first_line(text: &[u8]) -> (&[u8], Option<&[u8]>)
    ensures lines { lines_of text.now ≡ result.0.now ∷ lines_from (option_copied result.1) }
    ensures shorter { IfSome result.1 (λ rest. length rest.now < length text.now) }
{
    match find(text, LINE_END) {
        Some(end) => (&text[..end], Some(&text[end + 1..])),
        None => (text, None),
    }
}

/// The range of the parameter of this number, from its least value to its greatest.
fn range_of(which: u8) -> (u64, u64)
    requires { which < length parameters }
    ensures { (value : ℕ) → is_in_range which value ≡ (nat_le result.0 value && nat_le value result.1) }
{
    match which {
        0 => (0, GM_LIMIT - 1),
        1 => (0, MOST_THETA),
        2 => (1, MOST_THETA),
        3 => (1, BOX_SIDE - 1),
        4 => (1, MOST_LEAF),
        _ => (1, MOST_TICKS),
    }
}

/// The value, where it is in the range of the parameter of this number.
fn value_in_range(which: u8, value: u128) -> Option<u64>
    requires { which < length parameters }
    ensures { result ≡ (if is_in_range which value then Some value else None) }
{
    let (least, greatest) = range_of(which);
    let value = u64::try_from(value).ok()?;
    if least <= value && value <= greatest {
        Some(value)
    } else {
        None
    }
}

/// The values after one more line, which has this number.
fn add_line(number: u64, mut values: Values, line: Line) -> Result<Values, ParamsError>
    requires { SetsParameter line }
    ensures { result ≡ with_line number values line }
{
    match line {
        Line::Skipped => Ok(values),
        Line::Malformed => Err(ParamsError::Line(number)),
        Line::Setting(which, value) => {
            let index = usize::from(which);
            if values.numbers[index].is_some() {
                return Err(ParamsError::Twice(number));
            }
            match value_in_range(which, value) {
                Some(value) => {
                    values.numbers[index] = Some(value);
                    Ok(values)
                }
                None => Err(ParamsError::Range(number)),
            }
        }
        Line::Border(edge) => {
            if values.edge.is_some() {
                return Err(ParamsError::Twice(number));
            }
            values.edge = Some(edge);
            Ok(values)
        }
    }
}

/// The values that all lines give.
fn read_lines(text: &[u8]) -> Result<Values, ParamsError>
    ensures { result ≡ with_lines 1 no_values (lines_of text.now) }
{
    let mut values = Values {
        numbers: [None; NUMBERS],
        edge: None,
    };
    let mut number = 1;
    let mut rest = Some(text);
    while let Some(text) = rest {
        let (line, after) = first_line(text);
        values = add_line(number, values, read_line(line))?;
        number += 1;
        rest = after;
    }
    Ok(values)
}

/// The parameters, where each of the six has a value. Without an edge the box is open.
fn complete(values: Values) -> Result<Params, ParamsError>
    ensures { result ≡ params_from values }
{
    let [grav, theta_num, theta_den, soft, leaf, every] = values.numbers;
    Ok(Params {
        grav: grav.ok_or(ParamsError::Missing(0))?,
        theta_num: theta_num.ok_or(ParamsError::Missing(1))?,
        theta_den: theta_den.ok_or(ParamsError::Missing(2))?,
        soft: soft.ok_or(ParamsError::Missing(3))?,
        leaf: leaf.ok_or(ParamsError::Missing(4))?,
        every: every.ok_or(ParamsError::Missing(5))?,
        edge: values.edge.unwrap_or(Edge::Open),
    })
}

/// The parameters that a text gives: a line `name = value` each, in any order, beside empty lines and
/// comments that begin with `#`. The value of `edge`, which may be left out and then is `open`, is `open` or
/// `wrap`, and that of each other name a number. It refuses a text of more than `MOST_TEXT` bytes, unread;
/// then the first faulty line; then the first of the six numbers that is missing.
pub fn read_params(text: &[u8]) -> Result<Params, ParamsError>
    ensures reads { result ≡ params_of text.now }
    ensures in_range { IfOk result AreInRange }
    ensures missing { IfErr result NamesParameter }
{
    if text.len() > MOST_TEXT {
        return Err(ParamsError::Long);
    }
    complete(read_lines(text)?)
}
