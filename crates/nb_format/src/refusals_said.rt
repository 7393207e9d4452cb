//! The lines on Err: why a command isn't done.

ghost use Rattle.std.specs.Prelude.{◌≡◌};
ghost use Rattle.nb_format.specs.ParamsText.{NamesParameter};
ghost use Rattle.nb_format.specs.SnapshotRefusal.{IsBySnapshot};
ghost use Rattle.nb_format.specs.Lines.{words_text, params_text, snapshot_text, heavy_text, not_started_text, already_text, leg_text, limit_text, there_text, many_text, device_text, damaged_text, memory_text};

use crate::parameter::name_at;
use crate::{ParamsError, SnapError, Text};

/// The line where the words are no command.
#[tactic(auto, unfolding(crate::specs::Lines::words_text))]
pub fn words_text() -> Text
    ensures { result ≡ words_text }
{
    Text::of(b"nbody: the words are not a command\n")
}

/// The line where the parameters can't be read. A missing one is told by its name.
#[tactic(auto, using(crate::proofs::Decimals::digit_counts), unfolding(crate::specs::Lines::params_text))]
pub fn params_text(error: &ParamsError) -> Text
    requires { NamesParameter error.now }
    ensures { result ≡ params_text error.now }
{
    match *error {
        ParamsError::Long => Text::of(b"nbody: params: longer than 65536 bytes\n"),
        ParamsError::Line(n) => Text::of(b"nbody: params: line ").number(n).then(b"\n"),
        ParamsError::Twice(n) => Text::of(b"nbody: params: line ")
            .number(n)
            .then(b" repeats a name\n"),
        ParamsError::Range(n) => Text::of(b"nbody: params: line ")
            .number(n)
            .then(b" is out of range\n"),
        ParamsError::Missing(which) => Text::of(b"nbody: params: ")
            .then(name_at(which))
            .then(b" is missing\n"),
    }
}

/// The line where the snapshot can't be read, for a refusal of its bytes.
#[tactic(auto, using(crate::proofs::Decimals::digit_counts), unfolding(crate::specs::Lines::snapshot_text))]
pub fn snapshot_text(error: &SnapError) -> Text
    requires { IsBySnapshot error.now }
    ensures { result ≡ snapshot_text error.now }
{
    let said = Text::of(b"nbody: snapshot: ");
    match *error {
        SnapError::Short => said.then(b"short\n"),
        SnapError::Unfinished => said.then(b"unfinished\n"),
        SnapError::Magic => said.then(b"magic\n"),
        SnapError::Count => said.then(b"count\n"),
        SnapError::Zeros => said.then(b"zeros\n"),
        SnapError::Length => said.then(b"length\n"),
        SnapError::IdOrder(i) => said.then(b"id order at body ").number(i).then(b"\n"),
        SnapError::Mass(i) => said.then(b"mass at body ").number(i).then(b"\n"),
        SnapError::Flag(i) => said.then(b"flag at body ").number(i).then(b"\n"),
        SnapError::Place(i) => said.then(b"place at body ").number(i).then(b"\n"),
        SnapError::Speed(i) => said.then(b"speed at body ").number(i).then(b"\n"),
        SnapError::Fault | SnapError::NoMemory => unreachable!(),
    }
}

/// The line where the constant of gravity times the mass of all bodies is too great.
#[tactic(auto, using(crate::proofs::Decimals::digit_counts), unfolding(crate::specs::Lines::heavy_text))]
pub fn heavy_text(grav: u64, mass: u64) -> Text
    ensures { result ≡ heavy_text grav mass }
{
    Text::of(b"nbody: grav ")
        .number(grav)
        .then(b" times mass ")
        .number(mass)
        .then(b" is not below 2^60\n")
}

/// The line where no run is started in the folder.
#[tactic(auto, unfolding(crate::specs::Lines::not_started_text))]
pub fn not_started_text() -> Text
    ensures { result ≡ not_started_text }
{
    Text::of(b"nbody: not started\n")
}

/// The line where a run is started in the folder already.
#[tactic(auto, unfolding(crate::specs::Lines::already_text))]
pub fn already_text() -> Text
    ensures { result ≡ already_text }
{
    Text::of(b"nbody: already started\n")
}

/// The line where the last leg isn't at its target yet.
#[tactic(auto, using(crate::proofs::Decimals::digit_counts), unfolding(crate::specs::Lines::leg_text))]
pub fn leg_text(target: u64, time: u64) -> Text
    ensures { result ≡ leg_text target time }
{
    Text::of(b"nbody: the leg to ")
        .number(target)
        .then(b" is open at time ")
        .number(time)
        .then(b"\n")
}

/// The line where more ticks are asked for than a run may have.
#[tactic(auto, using(crate::proofs::Decimals::digit_counts), unfolding(crate::specs::Lines::limit_text))]
pub fn limit_text(ticks: u128) -> Text
    ensures { result ≡ limit_text ticks }
{
    Text::of(b"nbody: ")
        .wide_number(ticks)
        .then(b" ticks are more than 2^40\n")
}

/// The line where `make` finds a file that it would write.
#[tactic(auto, unfolding(crate::specs::Lines::there_text))]
pub fn there_text() -> Text
    ensures { result ≡ there_text }
{
    Text::of(b"nbody: params or init.nbs is there\n")
}

/// The line where `once` finds more bodies than it takes.
#[tactic(auto, using(crate::proofs::Decimals::digit_counts), unfolding(crate::specs::Lines::many_text))]
pub fn many_text(count: u64) -> Text
    ensures { result ≡ many_text count }
{
    Text::of(b"nbody: ")
        .number(count)
        .then(b" bodies are more than 4096\n")
}

/// The line where the device failed.
#[tactic(auto, unfolding(crate::specs::Lines::device_text))]
pub fn device_text() -> Text
    ensures { result ≡ device_text }
{
    Text::of(b"nbody: a device fault\n")
}

/// The line where a file isn't of the form that the run gave it: its number, and the place in it, which is a
/// page, a byte or a body by the kind of the file.
#[tactic(auto, using(crate::proofs::Decimals::digit_counts), unfolding(crate::specs::Lines::damaged_text))]
pub fn damaged_text(file: u64, place: u64) -> Text
    ensures { result ≡ damaged_text file place }
{
    Text::of(b"nbody: damaged file ")
        .number(file)
        .then(b" at ")
        .number(place)
        .then(b"\n")
}

/// The line where memory is wanting.
#[tactic(auto, unfolding(crate::specs::Lines::memory_text))]
pub fn memory_text() -> Text
    ensures { result ≡ memory_text }
{
    Text::of(b"nbody: no memory\n")
}
