//! What one line of a parameter text says.

ghost use Rattle.std.specs.Prelude.{◌≡◌, ◌==◌, ◌-◌, length, take, drop};
ghost use Rattle.std.specs.List.{prefix_len, suffix_len, position};
ghost use Rattle.std.specs.Str.{bytes_eq};
ghost use Rattle.nb_format.specs.ParamsText.{is_blank as is_blank_byte, trimmed, which_of as number_of_name, edge_of as edge_named, edge_name, setting_of, content_of, line_of};
ghost use Rattle.nb_format.specs.ParamsReading.{SetsParameter};

use crate::digits::long_number_of;
use nb_model::Edge;

/// What a line says.
#[derive(Clone, Copy, PartialEq, Eq, Debug)]
pub(crate) enum Line {
    /// Nothing: the line is empty or a comment.
    Skipped,
    /// The line isn't of the form, or its name isn't a parameter's.
    Malformed,
    /// The number of one of the six parameters, and its value, which may be out of its range.
    Setting(u8, u128),
    /// The edge of the box.
    Border(Edge),
}

/// The byte that begins a comment.
const COMMENT: u8 = b'#';

/// The byte between a name and its value.
const EQUALS: u8 = b'=';

/// Whether a byte is a space, a tab or a carriage return.
fn is_blank(byte: u8) -> bool
    ensures { result ≡ is_blank_byte byte }
{
    byte == b' ' || byte == b'\t' || byte == b'\r'
}

/// The offset of the first such byte.
pub(crate) fn find(text: &[u8], wanted: u8) -> Option<usize>
    ensures { result ≡ position (λ byte. byte == wanted) text.now }
{
    text.iter().position(|byte| *byte == wanted)
}

/// The text without the blanks at its start.
fn trim_start(text: &[u8]) -> &[u8]
    ensures { result.now ≡ drop (prefix_len is_blank_byte text.now) text.now }
{
    let mut start = 0;
    while start < text.len() && is_blank(text[start]) {
        start += 1;
    }
    &text[start..]
}

/// The text without the blanks at its end.
fn trim_end(text: &[u8]) -> &[u8]
    ensures { result.now ≡ take (length text.now - suffix_len is_blank_byte text.now) text.now }
{
    let mut end = text.len();
    while 0 < end && is_blank(text[end - 1]) {
        end -= 1;
    }
    &text[..end]
}

/// The text without the blanks at its two ends.
fn trim(text: &[u8]) -> &[u8]
    ensures { result.now ≡ trimmed text.now }
{
    trim_end(trim_start(text))
}

/// Whether a name is that of the edge.
fn is_edge(name: &[u8]) -> bool
    ensures { result ≡ bytes_eq edge_name name.now }
{
    matches!(name, b"edge")
}

/// The edge that a text names.
fn edge_of(text: &[u8]) -> Option<Edge>
    ensures { result ≡ edge_named text.now }
{
    match text {
        b"open" => Some(Edge::Open),
        b"wrap" => Some(Edge::Wrap),
        _ => None,
    }
}

/// The number of the one of the six with this name.
fn which_of(name: &[u8]) -> Option<u8>
    ensures { result ≡ number_of_name name.now }
{
    match name {
        b"grav" => Some(0),
        b"theta_num" => Some(1),
        b"theta_den" => Some(2),
        b"soft" => Some(3),
        b"leaf" => Some(4),
        b"every" => Some(5),
        _ => None,
    }
}

/// What a name and a value say, each without outer blanks.
#[tactic(auto, unfolding(crate::specs::ParamsText::setting_of))]
fn setting(name: &[u8], value: &[u8]) -> Line
    ensures { result ≡ setting_of name.now value.now }
{
    if is_edge(name) {
        return match edge_of(value) {
            Some(edge) => Line::Border(edge),
            None => Line::Malformed,
        };
    }
    match (which_of(name), long_number_of(value)) {
        (Some(which), Some(value)) => Line::Setting(which, value),
        _ => Line::Malformed,
    }
}

/// What a line says that is empty or has no outer blanks.
#[tactic(auto, using(crate::proofs::Settings::setting_of_nothing))]
fn content(line: &[u8]) -> Line
    ensures { result ≡ content_of line.now }
{
    if line.is_empty() || line[0] == COMMENT {
        return Line::Skipped;
    }
    match find(line, EQUALS) {
        Some(at) => setting(trim(&line[..at]), trim(&line[at + 1..])),
        None => Line::Malformed,
    }
}

/// What a line says. A setting is one of the parameters.
pub(crate) fn read_line(line: &[u8]) -> Line
    ensures says { result ≡ line_of line.now }
    ensures known { SetsParameter result }
{
    content(trim(line))
}
