//! The header of a journal, read.

ghost use Rattle.std.specs.Prelude.{◌≡◌, ◌↔◌, ◌⊎◌, IsTrue, IfSome, None};
ghost use Rattle.nb_model.specs.Valid.{AreInRange};
ghost use Rattle.nb_journal.specs.Counters.{log_under, heading_of};
ghost use Rattle.nb_journal.specs.Form.{Log, IsVersion, IsLawful, header};

use crate::form::{DIGITS, Heading, STARTED, VERSION, page};
use crate::reading::u64_at;
use nb_host::PAGE_SIZE;
use nb_model::{BOX_SIDE, Edge, GM_LIMIT, MOST_BODIES, MOST_TICKS, Params};

/// The greatest number of either part of the opening angle.
const MOST_THETA: u64 = 32768;

/// The most bodies of a leaf.
const MOST_LEAF: u64 = 32;

/// The heading of a page 0, behind an open gate, where it is one of a journal.
pub(crate) fn said(bytes: &[u8; PAGE_SIZE]) -> Option<Heading>
    ensures some { IfSome result (λ heading. IsLawful (log_under heading)
        × (bytes.now ≡ header 83 (log_under heading))) }
    ensures none { result ≡ None → (log : Log) → IsLawful log → bytes.now ≡ header 83 log → ⊥ }
{
    let heading = parse_heading(bytes);
    if !is_lawful(&heading) {
        return None;
    }
    if !is_page(&heading, bytes) {
        return None;
    }
    Some(heading)
}

/// Whether these bytes are the page of the heading, behind an open gate.
fn is_page(heading: &Heading, bytes: &[u8; PAGE_SIZE]) -> bool
    requires { IsLawful (log_under heading.now) }
    ensures { IsTrue result ↔ (bytes.now ≡ header 83 (log_under heading.now)) }
{
    *bytes == page(STARTED, heading)
}

/// The heading of these bytes, where they are one's.
fn parse_heading(bytes: &[u8; PAGE_SIZE]) -> Heading
    ensures { (log : Log) → IsLawful log → bytes.now ≡ header 83 log → result ≡ heading_of log }
{
    let params = Params {
        grav: u64_at(bytes, 8),
        theta_num: u64_at(bytes, 16),
        theta_den: u64_at(bytes, 24),
        soft: u64_at(bytes, 32),
        leaf: u64_at(bytes, 40),
        every: u64_at(bytes, 48),
        edge: edge_of(u64_at(bytes, 80)),
    };
    Heading {
        version: version_of(bytes[7]),
        params,
        count: u64_at(bytes, 56),
        time: u64_at(bytes, 64),
        gone: u64_at(bytes, 72),
    }
}

fn edge_of(number: u64) -> Edge
    ensures open { number ≡ 0 → result ≡ Edge.Open }
    ensures wrap { number ≡ 1 → result ≡ Edge.Wrap }
{
    if number == 0 { Edge::Open } else { Edge::Wrap }
}

fn version_of(digit: u8) -> u8
    ensures first { digit ≡ 49 → result ≡ 1 }
    ensures second { digit ≡ 50 → result ≡ 2 }
{
    if digit == DIGITS + 1 { 1 } else { VERSION }
}

fn is_version(version: u8, edge: Edge) -> bool
    ensures { IsTrue result ↔ IsVersion version edge }
{
    match version {
        1 => edge == Edge::Open,
        2 => true,
        _ => false,
    }
}

fn are_in_range(params: &Params) -> bool
    ensures { IsTrue result ↔ AreInRange params.now }
{
    params.grav < GM_LIMIT
        && params.theta_num <= MOST_THETA
        && 1 <= params.theta_den
        && params.theta_den <= MOST_THETA
        && 1 <= params.soft
        && params.soft < BOX_SIDE
        && 1 <= params.leaf
        && params.leaf <= MOST_LEAF
        && 1 <= params.every
        && params.every <= MOST_TICKS
}

/// Whether a journal may have this heading.
fn is_lawful(heading: &Heading) -> bool
    ensures { IsTrue result ↔ IsLawful (log_under heading.now) }
{
    let _time = heading.time;
    is_version(heading.version, heading.params.edge)
        && are_in_range(&heading.params)
        && heading.count <= MOST_BODIES
        && heading.gone <= heading.count
}
