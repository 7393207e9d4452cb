//! The names of the program's files in its folder, by their numbers.

ghost use Rattle.std.specs.Prelude.{◌≡◌, IfOk, MatchOption, Some, None, slice_get, string_bytes};
ghost use Rattle.nbody.specs.Names.{fixed_names, file_name};

use std::alloc::{AllocError, Global};

/// So many files have a fixed name: those with the numbers from 0 on.
const FIXED: u64 = 10;

/// The file of the snapshot of tick k has this number plus k.
const SNAPSHOTS: u64 = 16;

/// The greatest tick of a snapshot.
const LAST_TICK: u64 = 1 << 40;

/// The name of the file with this number. A number that isn't used has a name of its own, which no file of
/// the program has.
pub fn name_of(alloc: Global, file: u64) -> Result<String, AllocError>
    ensures { IfOk result (λ name. string_bytes name ≡ file_name file) }
{
    if file > SNAPSHOTS {
        let tick = file - SNAPSHOTS;
        return format!(in alloc; "snap.{tick}.nbs");
    }
    match fixed_name(file) {
        Some(name) => String::from_str(alloc, name),
        None => format!(in alloc; "unused.{file}"),
    }
}

fn fixed_name(file: u64) -> Option<&'static str>
    ensures { MatchOption result (slice_get fixed_names file ≡ None)
        (λ name. slice_get fixed_names file ≡ Some name.now) }
{
    match file {
        0 => Some("params"),
        1 => Some("init.nbs"),
        2 => Some("journal"),
        3 => Some("bodies.0"),
        4 => Some("bodies.1"),
        5 => Some("moved"),
        6 => Some("sorted"),
        7 => Some("cells"),
        8 => Some("once.nbs"),
        9 => Some("track"),
        _ => None,
    }
}

/// Whether a file of the program has this name.
pub fn is_name(text: &str) -> bool {
    (0..FIXED).any(|file| fixed_name(file) == Some(text)) || is_snapshot_name(text)
}

fn is_snapshot_name(text: &str) -> bool {
    let Some(rest) = text.strip_prefix("snap.") else {
        return false;
    };
    let Some(tick) = rest.strip_suffix(".nbs") else {
        return false;
    };
    // `parse` takes a sign and leading zeros too, which no name has.
    let is_plain = !tick.starts_with('+') && !tick.starts_with('0');
    is_plain && matches!(tick.parse::<u64>(), Ok(1..=LAST_TICK))
}
