//! The bits of a number with room between them, so that three numbers can be interleaved.

ghost use Rattle.std.specs.Prelude.{◌≡◌, ◌*◌, ◌^◌, ◌<◌};
ghost use Rattle.nb_model.specs.Limits.{deepest_level};
ghost use Rattle.nb_key.specs.Spread.{spread_of};

// Each mask keeps the blocks of bits that a step has moved apart, in blocks of half the length.
const BLOCKS_OF_16: u64 = 0x001f_0000_0000_ffff;

const BLOCKS_OF_8: u64 = 0x001f_0000_ff00_00ff;

const BLOCKS_OF_4: u64 = 0x100f_00f0_0f00_f00f;

const BLOCKS_OF_2: u64 = 0x10c3_0c30_c30c_30c3;

const BLOCKS_OF_1: u64 = 0x1249_2492_4924_9249;

/// The bits of a number of 21 bits, one for each level, with two zeros before each. Each of the five steps
/// makes two blocks of bits of one, by moving its upper half up. It takes the same time for every number.
pub(crate) fn spread(x: u64) -> u64
    requires { x < 2 ^ deepest_level }
    ensures spread { result ≡ spread_of deepest_level x }
    ensures small { 7 * result < 8 ^ deepest_level }
{
    let x = (x | x << 32) & BLOCKS_OF_16;
    let x = (x | x << 16) & BLOCKS_OF_8;
    let x = (x | x << 8) & BLOCKS_OF_4;
    let x = (x | x << 4) & BLOCKS_OF_2;
    (x | x << 2) & BLOCKS_OF_1
}
