//! What a crash of the host in memory leaves.

/// What a crash leaves of what wasn't synced.
#[derive(Clone, Copy, PartialEq, Eq, Debug)]
pub enum Outcome {
    /// All of it: each file reads as before.
    Kept,
    /// None of it: each file is as at the last sync that succeeded.
    Lost,
    /// Each file has its greatest length since that sync, the ends of failed writes counted, and each
    /// unsynced byte is this one.
    Filled(u8),
}
