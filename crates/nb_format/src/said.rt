//! The lines on Out: what is done. Times are in ticks, and `out` is how many bodies have left the box. Today
//! the program says that of `once` alone: `start`, `go`, `resume`, `show`, `make` and `demo` aren't built.

ghost use Rattle.std.specs.Prelude.{◌≡◌, ◌≤◌};
ghost use Rattle.nb_model.specs.Limits.{most_bodies, most_ticks};
ghost use Rattle.nb_format.specs.Lines.{started_line, tick_line, done_line, folder_line, once_line, made_line, demo_line};

use crate::Text;

/// The line where `start` is done.
#[tactic(auto, using(crate::proofs::Decimals::digit_counts), unfolding(crate::specs::Lines::started_line))]
pub fn started_line(bodies: u64, time: u64) -> Text
    ensures { result ≡ started_line bodies time }
{
    Text::of(b"started bodies ")
        .number(bodies)
        .then(b" time ")
        .number(time)
        .then(b"\n")
}

/// The line where a tick is durable: `k` is its number, and `time` the time behind it.
#[tactic(auto, using(crate::proofs::Decimals::digit_counts), unfolding(crate::specs::Lines::tick_line))]
pub fn tick_line(k: u64, time: u64, out: u64) -> Text
    ensures { result ≡ tick_line k time out }
{
    Text::of(b"tick ")
        .number(k)
        .then(b" time ")
        .number(time)
        .then(b" out ")
        .number(out)
        .then(b"\n")
}

/// The line where `go` or `resume` is done: `ticks` is how many ticks are done in the folder.
#[tactic(auto, using(crate::proofs::Decimals::digit_counts), unfolding(crate::specs::Lines::done_line))]
pub fn done_line(time: u64, ticks: u64, out: u64) -> Text
    ensures { result ≡ done_line time ticks out }
{
    Text::of(b"done time ")
        .number(time)
        .then(b" ticks ")
        .number(ticks)
        .then(b" out ")
        .number(out)
        .then(b"\n")
}

/// The first line of `show`: `target` is the time that the last leg is to come to.
#[tactic(auto, using(crate::proofs::Decimals::run_digit_counts), unfolding(crate::specs::Lines::folder_line))]
pub fn folder_line(time: u64, ticks: u64, target: u64, bodies: u64, out: u64) -> Text
    requires few_ticks { ticks ≤ most_ticks }
    requires few_bodies { bodies ≤ most_bodies }
    requires few_out { out ≤ most_bodies }
    ensures { result ≡ folder_line time ticks target bodies out }
{
    Text::of(b"folder time ")
        .number(time)
        .then(b" ticks ")
        .number(ticks)
        .then(b" target ")
        .number(target)
        .then(b" bodies ")
        .number(bodies)
        .then(b" out ")
        .number(out)
        .then(b"\n")
}

/// The line where `once` is done: `ticks` is how many ticks it took.
#[tactic(auto, using(crate::proofs::Decimals::digit_counts), unfolding(crate::specs::Lines::once_line))]
pub fn once_line(time: u64, ticks: u64, out: u64) -> Text
    ensures { result ≡ once_line time ticks out }
{
    Text::of(b"once time ")
        .number(time)
        .then(b" ticks ")
        .number(ticks)
        .then(b" out ")
        .number(out)
        .then(b"\n")
}

/// The line where `make` is done.
#[tactic(auto, using(crate::proofs::Decimals::digit_counts), unfolding(crate::specs::Lines::made_line))]
pub fn made_line(bodies: u64) -> Text
    ensures { result ≡ made_line bodies }
{
    Text::of(b"made bodies ").number(bodies).then(b"\n")
}

/// The line where `demo` is done: `sum` is that of all coordinates of all bodies, in box units.
#[tactic(auto, using(crate::proofs::Decimals::digit_counts), unfolding(crate::specs::Lines::demo_line))]
pub fn demo_line(bodies: u64, out: u64, sum: u128) -> Text
    ensures { result ≡ demo_line bodies out sum }
{
    Text::of(b"demo bodies ")
        .number(bodies)
        .then(b" out ")
        .number(out)
        .then(b" sum ")
        .wide_number(sum)
        .then(b"\n")
}
