//! Why the program ends without being done.

ghost use Rattle.std.specs.Prelude.{◌≡◌};
ghost use Rattle.nb_cli.specs.Stop.{status_of, line_of_refusal, stop_status, stop_line, HasRefusalLine, IsSayable};
ghost use Rattle.nb_cli.specs.declared.stop.Stop.TheVariants as stop;

use crate::status::{
    DAMAGED, DEVICE, INIT_THERE, LEG_OPEN, MEMORY, NOT_STARTED, PARAMS, SNAPSHOT, STARTED,
    TICK_LIMIT, TOO_HEAVY, TOO_MANY, WORDS,
};
use nb_engine::Refusal;
use nb_format::{
    Text, already_text, damaged_text, device_text, heavy_text, leg_text, limit_text, many_text,
    memory_text, not_started_text, params_text, snapshot_text, there_text, words_text,
};

/// Why the program ends without being done.
#[derive(Clone, Copy, PartialEq, Eq, Debug)]
pub enum Stop {
    /// The words are no command.
    Words,
    /// The command was refused.
    Refused(Refusal),
}

impl Stop {
    /// The exit status.
    pub fn status(&self) -> u8
        ensures { result ≡ stop_status self.now }
    {
        match self {
            Stop::Words => WORDS,
            Stop::Refused(refusal) => refusal_status(refusal),
        }
    }

    /// The line on Err.
    pub fn line(&self) -> Text
        requires { IsSayable self.now }
        ensures { result ≡ stop_line self.now }
    {
        match self {
            Stop::Words => words_text(),
            Stop::Refused(refusal) => refusal_line(refusal),
        }
    }
}

/// The exit status of a refusal.
fn refusal_status(refusal: &Refusal) -> u8
    ensures { result ≡ status_of refusal.now }
{
    match refusal {
        Refusal::Params(_) => PARAMS,
        Refusal::Snapshot(_) => SNAPSHOT,
        Refusal::TooHeavy(..) => TOO_HEAVY,
        Refusal::NotStarted => NOT_STARTED,
        Refusal::Started => STARTED,
        Refusal::LegOpen(..) => LEG_OPEN,
        Refusal::TickLimit(_) => TICK_LIMIT,
        Refusal::InitThere => INIT_THERE,
        Refusal::TooMany(_) => TOO_MANY,
        Refusal::Device => DEVICE,
        Refusal::Damaged(_) => DAMAGED,
        Refusal::NoMemory => MEMORY,
    }
}

/// The line of a refusal on Err.
fn refusal_line(refusal: &Refusal) -> Text
    requires { HasRefusalLine refusal.now }
    ensures { result ≡ line_of_refusal refusal.now }
{
    match refusal {
        Refusal::Params(error) => params_text(error),
        Refusal::Snapshot(error) => snapshot_text(error),
        Refusal::TooHeavy(grav, mass) => heavy_text(*grav, *mass),
        Refusal::NotStarted => not_started_text(),
        Refusal::Started => already_text(),
        Refusal::LegOpen(target, time) => leg_text(*target, *time),
        Refusal::TickLimit(ticks) => limit_text(*ticks),
        Refusal::InitThere => there_text(),
        Refusal::TooMany(count) => many_text(*count),
        Refusal::Device => device_text(),
        Refusal::Damaged(place) => damaged_text(place.file, place.page),
        Refusal::NoMemory => memory_text(),
    }
}

impl From<Refusal> for Stop {
    ghost from_gives = { λ refusal r. r ≡ stop.Refused refusal };

    fn from(refusal: Refusal) -> Self {
        Stop::Refused(refusal)
    }
}
