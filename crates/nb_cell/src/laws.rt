//! What is proved of tables of cells beside their calls.

ghost use Rattle.std.specs.Prelude.{◌≡◌};

use crate::table::MOST_BITS;

/// At most 18 bits of a key name its chain.
pub fn law_most_bits()
    ensures { MOST_BITS ≡ 18 }
{}
