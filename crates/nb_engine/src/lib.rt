//! Sessions: what a folder stands for, and what a session does with it.
//!
//! `run_start` begins a run from what `params_file` and `init_file` read. `going` leads one to a time: `opening`
//! finds its journal, `ticking` takes the ticks with what `workspace` holds, and `snapshot` writes a snapshot
//! where `due` says so. `shown` has what a journal tells, `files` the numbers of a run's files, `refusal` why a
//! session is refused, and `laws` the laws of runs. In `specs/` `Histories` says what a run is, `Represents`
//! what a folder's files stand for, `Acknowledged` which ticks were told, `Gates` what has to stand before a
//! gate of the journal opens, and `Start`, `Sessions` and `Shown` what the sessions do.
#![tactic(auto)]

mod due;
mod files;
mod going;
mod init_file;
mod laws;
mod opening;
mod params_file;
mod refusal;
mod run_start;
mod shown;
mod snapshot;
#[cfg(test)]
mod tests;
mod ticking;
mod workspace;

pub use files::{INIT_FILE, PARAMS_FILE, snapshot_file};
pub use going::{Done, Pace, go, resume};
pub use init_file::{Census, survey};
pub use laws::{law_acknowledged, law_represents, law_run, law_times};
pub use params_file::parameters;
pub use refusal::Refusal;
pub use run_start::{Begun, start};
pub use shown::{Shown, show};
