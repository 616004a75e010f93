// The shapes of the block sizes: four tables, which the Rust's partition.rs has and names so.
ghost use Rattle.std.specs.Prelude.{◌≡◌};
ghost use Rattle.blocks.specs.BlockSizes.{by_size, mi_width_log2, mi_height_log2, num8x8_wide, num8x8_high};

use crate::block_size::BlockSize;

const MI_WIDTH_LOG2_LOOKUP: [u8; 13] = [0, 0, 0, 0, 0, 1, 1, 1, 2, 2, 2, 3, 3];

const MI_HEIGHT_LOG2_LOOKUP: [u8; 13] = [0, 0, 0, 0, 1, 0, 1, 2, 1, 2, 3, 2, 3];

const NUM_8X8_BLOCKS_WIDE_LOOKUP: [u8; 13] = [1, 1, 1, 1, 1, 2, 2, 2, 4, 4, 4, 8, 8];

const NUM_8X8_BLOCKS_HIGH_LOOKUP: [u8; 13] = [1, 1, 1, 1, 2, 1, 2, 4, 2, 4, 8, 4, 8];

// A caller with many blocks takes the tables once: the compiler lays a constant array on the stack where it is read.

#[tactic(auto, unfolding(base::specs::Filled::filled, crate::specs::BlockSizes::mi_width_log2))]
pub fn mi_width_log2_table() -> [u8; 13]
    ensures { result ≡ by_size mi_width_log2 }
{
    MI_WIDTH_LOG2_LOOKUP
}

#[tactic(auto, unfolding(base::specs::Filled::filled, crate::specs::BlockSizes::mi_height_log2))]
pub fn mi_height_log2_table() -> [u8; 13]
    ensures { result ≡ by_size mi_height_log2 }
{
    MI_HEIGHT_LOG2_LOOKUP
}

#[tactic(auto, unfolding(crate::specs::BlockSizes::num8x8_wide, crate::specs::BlockSizes::mi_width_log2))]
pub fn num_8x8_wide(size: BlockSize) -> u8
    ensures { result ≡ num8x8_wide size.number }
{
    NUM_8X8_BLOCKS_WIDE_LOOKUP[usize::from(size.number)]
}

#[tactic(auto, unfolding(crate::specs::BlockSizes::num8x8_high, crate::specs::BlockSizes::mi_height_log2))]
pub fn num_8x8_high(size: BlockSize) -> u8
    ensures { result ≡ num8x8_high size.number }
{
    NUM_8X8_BLOCKS_HIGH_LOOKUP[usize::from(size.number)]
}
