//! What the program reads, writes and says: the parameter text, the snapshot and the lines.
//!
//! `snap_reader` accepts exactly a snapshot or names its first bad field (`specs/Snapshot` and
//! `SnapshotRefusal`), `snap_writer` fills a file that is finished only when it is right, and `finished`
//! looks whether one is. `params_reader` accepts exactly a parameter text or names its first fault
//! (`specs/ParamsText`). `text` is a line in place. `said` and `refusals_said` make the lines of `specs/Lines`,
//! and `parameter` those of a parameter text.
#![tactic(auto)]

mod bytes;
mod digits;
mod finished;
mod header;
mod laws;
mod length;
mod line_laws;
mod parameter;
mod params_error;
mod params_laws;
mod params_line;
mod params_reader;
mod record;
mod refusals_said;
mod said;
mod snap_error;
mod snap_reader;
mod snap_writer;
mod text;
mod writer_laws;

pub use digits::number_of;
pub use finished::snap_finished;
pub use laws::{law_one_snapshot, law_snapshot_is_finished, law_snapshot_refusal};
pub use line_laws::{law_one_tick, law_refusal_lines, law_said_lines};
pub use parameter::param_line;
pub use params_error::ParamsError;
pub use params_laws::{
    law_canonical_params, law_each_parameter_once, law_first_faulty_line, law_params_in_range,
};
pub use params_reader::{MOST_TEXT, read_params};
pub use refusals_said::{
    already_text, damaged_text, device_text, heavy_text, leg_text, limit_text, many_text,
    memory_text, not_started_text, params_text, snapshot_text, there_text, words_text,
};
pub use said::{demo_line, done_line, folder_line, made_line, once_line, started_line, tick_line};
pub use snap_error::SnapError;
pub use snap_reader::SnapReader;
pub use snap_writer::{Closed, Filling, Fresh};
pub use text::{LONGEST_TEXT, Text};
pub use writer_laws::{law_being_written, law_filling_kept, law_reading_kept, law_written};

#[cfg(test)]
mod params_tests;
#[cfg(test)]
mod tests;
