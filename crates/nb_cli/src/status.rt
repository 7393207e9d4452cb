//! The program's exit statuses.

/// The command was done.
pub const DONE: u8 = 0;

/// The words are no command.
pub const WORDS: u8 = 1;

/// The parameter text isn't one.
pub const PARAMS: u8 = 2;

/// The initial snapshot isn't of the snapshot form.
pub const SNAPSHOT: u8 = 3;

/// The bodies are too heavy for the constant of gravity.
pub const TOO_HEAVY: u8 = 4;

/// No run is started in the folder.
pub const NOT_STARTED: u8 = 5;

/// A run is started in the folder.
pub const STARTED: u8 = 6;

/// The last leg isn't at its target.
pub const LEG_OPEN: u8 = 7;

/// More ticks are asked for than a run can have.
pub const TICK_LIMIT: u8 = 8;

/// The parameters or the initial snapshot are there already.
pub const INIT_THERE: u8 = 9;

/// There are more bodies than `once` takes.
pub const TOO_MANY: u8 = 10;

/// The device failed: the host's count of faults rose.
pub const DEVICE: u8 = 11;

/// A file isn't what it has to be.
pub const DAMAGED: u8 = 12;

/// Memory is wanting.
pub const MEMORY: u8 = 13;
