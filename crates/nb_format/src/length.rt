//! How long a snapshot is.

ghost use Rattle.std.specs.Prelude.{◌≡◌, ◌≤◌};
ghost use Rattle.nb_model.specs.Limits.{most_bodies};
ghost use Rattle.nb_format.specs.Snapshot.{snapshot_length};

use crate::header::HEADER_LENGTH;
use crate::record::RECORD_LENGTH;

/// The length of a snapshot of so many bodies, in bytes: where the record behind them begins.
pub(crate) fn snapshot_length(count: u64) -> u64
    requires { count ≤ most_bodies }
    ensures { result ≡ snapshot_length count }
{
    HEADER_LENGTH as u64 + RECORD_LENGTH as u64 * count
}
