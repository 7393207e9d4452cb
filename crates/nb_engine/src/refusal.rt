//! Why a session is refused.

ghost use Rattle.std.specs.Prelude.{◌≡◌};
ghost use Rattle.nb_engine.specs.Refusal.{of_host, of_journal, of_snapshot, of_cache, of_order, of_tick};
ghost use Rattle.nb_engine.specs.declared.refusal.Refusal.TheVariants as refusal;

use nb_cache::CacheError;
use nb_format::{ParamsError, SnapError};
use nb_host::{HostError, PageName};
use nb_journal::JournalError;
use nb_order::OrderError;
use nb_tick::TickError;
use std::alloc::AllocError;

/// The file of the journal.
const JOURNAL_FILE: u64 = 2;

/// Why a session is refused.
#[derive(Clone, Copy, PartialEq, Eq, Debug)]
pub enum Refusal {
    /// The parameter text isn't one.
    Params(ParamsError),
    /// The initial snapshot isn't of the snapshot form.
    Snapshot(SnapError),
    /// The constant of gravity, first, times the mass of all bodies is too great.
    TooHeavy(u64, u64),
    /// No run is started in the folder.
    NotStarted,
    /// A run is started in the folder.
    Started,
    /// The last leg leads to this target, first, and the run's time is another.
    LegOpen(u64, u64),
    /// So many ticks are asked for, with those that are done, which are more than a run can have.
    TickLimit(u128),
    /// The parameters or the initial snapshot are there already.
    InitThere,
    /// There are so many bodies, which are more than `once` takes.
    TooMany(u64),
    /// The device failed. The host's count of faults rose.
    Device,
    /// A file isn't what it has to be, from this place on: a page of bodies or cells, a byte of the journal, or
    /// a body of a snapshot.
    Damaged(PageName),
    /// Memory is wanting.
    NoMemory,
}

impl From<JournalError> for Refusal {
    ghost from_gives = { λ error r. r ≡ of_journal error };

    fn from(error: JournalError) -> Self {
        match error {
            JournalError::Fault => Refusal::Device,
            JournalError::NoMemory => Refusal::NoMemory,
            JournalError::Damaged(page) => Refusal::Damaged(PageName {
                file: JOURNAL_FILE,
                page,
            }),
        }
    }
}

impl From<HostError> for Refusal {
    ghost from_gives = { λ error r. r ≡ of_host error };

    fn from(error: HostError) -> Self {
        match error {
            HostError::Fault => Refusal::Device,
            HostError::NoMemory => Refusal::NoMemory,
        }
    }
}

impl From<SnapError> for Refusal {
    ghost from_gives = { λ error r. r ≡ of_snapshot error };

    fn from(error: SnapError) -> Self {
        match error {
            SnapError::Fault => Refusal::Device,
            SnapError::NoMemory => Refusal::NoMemory,
            _ => Refusal::Snapshot(error),
        }
    }
}

impl From<CacheError> for Refusal {
    ghost from_gives = { λ error r. r ≡ of_cache error };

    fn from(error: CacheError) -> Self {
        match error {
            CacheError::Fault => Refusal::Device,
            CacheError::NoMemory => Refusal::NoMemory,
            CacheError::Short(page) => Refusal::Damaged(page),
        }
    }
}

impl From<OrderError> for Refusal {
    ghost from_gives = { λ error r. r ≡ of_order error };

    fn from(error: OrderError) -> Self {
        match error {
            OrderError::Fault => Refusal::Device,
            OrderError::NoMemory => Refusal::NoMemory,
            OrderError::Damaged(page) => Refusal::Damaged(page),
        }
    }
}

impl From<TickError> for Refusal {
    ghost from_gives = { λ error r. r ≡ of_tick error };

    fn from(error: TickError) -> Self {
        match error {
            TickError::Fault => Refusal::Device,
            TickError::NoMemory => Refusal::NoMemory,
            TickError::Damaged(page) => Refusal::Damaged(page),
        }
    }
}

impl From<ParamsError> for Refusal {
    ghost from_gives = { λ error r. r ≡ refusal.Params error };

    fn from(error: ParamsError) -> Self {
        Refusal::Params(error)
    }
}

impl From<AllocError> for Refusal {
    ghost from_gives = { λ _ r. r ≡ refusal.NoMemory };

    fn from(_: AllocError) -> Self {
        Refusal::NoMemory
    }
}

impl From<nb_model::NoMemory> for Refusal {
    ghost from_gives = { λ _ r. r ≡ refusal.NoMemory };

    fn from(_: nb_model::NoMemory) -> Self {
        Refusal::NoMemory
    }
}
