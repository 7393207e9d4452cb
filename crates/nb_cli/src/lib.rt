//! All that the program does, over any host: its words, its commands, and what they say.
//!
//! `program` has the one call that does it all, from the words to the exit status (`status`). `words` reads the
//! words, which `clap` splits. `once_command` does `once` over the snapshot that `init_file` reads,
//! `make_command` and `demo_command` do `make` and `demo` over the bodies of `generator`, `show_command` has the
//! text of `show`, and `stop` says why not. `worlds` has the laws of invocations.
#![tactic(auto)]

mod demo_command;
mod generator;
mod init_file;
mod make_command;
mod once_command;
mod program;
mod show_command;
pub mod status;
mod stop;
mod words;
mod worlds;

pub use demo_command::demo;
pub use make_command::make;
pub use once_command::once;
pub use program::nbody;
pub use stop::Stop;
pub use words::{Job, WordsError, read_words};
pub use worlds::{law_demo, law_worlds};
