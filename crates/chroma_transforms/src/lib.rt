// The transforms of chroma blocks, from the Rust's residual.rs. A subsampling is two flags here, as in a superblock: a struct of both
// would be taken apart at its one use, where each flag is an index.
#![tactic(auto)]

ghost use Rattle.std.specs.Prelude.{◌≡◌, ◌≤◌, MatchOption};
ghost use Rattle.blocks.specs.BlockSizes.{by_size};
ghost use Rattle.chroma_transforms.specs.ChromaTransforms.{invalid, max_tx_size, ss_size, uv_limit};

use blocks::block_size::BlockSize;
use std::array;

const BLOCK_8X8: u8 = 3;

const MAX_TXSIZE_LOOKUP: [u8; 13] = [0, 0, 0, 1, 1, 1, 2, 2, 2, 3, 3, 3, 3];

// ss_size_lookup[ size ][ subX ][ subY ]. 14 stands for BLOCK_INVALID, as in the standard.
const SS_SIZE_LOOKUP: [[[u8; 2]; 2]; 13] = [
    [[0, 14], [14, 14]],
    [[1, 0], [14, 14]],
    [[2, 14], [0, 14]],
    [[3, 2], [1, 0]],
    [[4, 3], [14, 1]],
    [[5, 14], [3, 2]],
    [[6, 5], [4, 3]],
    [[7, 6], [14, 4]],
    [[8, 14], [6, 5]],
    [[9, 8], [7, 6]],
    [[10, 9], [14, 7]],
    [[11, 14], [9, 8]],
    [[12, 11], [10, 9]],
];

#[tactic(auto, unfolding(crate::specs::ChromaTransforms::max_tx_size))]
fn max_tx_size(size: BlockSize) -> u8
    ensures { result ≡ max_tx_size size.number }
{
    MAX_TXSIZE_LOOKUP[usize::from(size.number)]
}

// None where the shape of the chroma block does not exist.
#[tactic(auto, using(crate::specs::ChromaTransformsLaws::ss_size_listed, crate::specs::ChromaTransformsLaws::ss_size_lem))]
fn ss_size(size: BlockSize, subx: bool, suby: bool) -> Option<BlockSize>
    ensures { MatchOption result (ss_size size.number subx suby ≡ invalid) (λ s. s.number ≡ ss_size size.number subx suby) }
{
    let number = SS_SIZE_LOOKUP[usize::from(size.number)][usize::from(subx)][usize::from(suby)];
    BlockSize::try_from(number).ok()
}

#[tactic(auto, unfolding(crate::specs::ChromaTransforms::uv_limit), using(crate::specs::ChromaTransformsLaws::ss_size_lem))]
fn uv_limit(subx: bool, suby: bool, mi_size: BlockSize) -> u8
    ensures { result ≡ uv_limit subx suby mi_size.number }
{
    if mi_size.number < BLOCK_8X8 {
        return 0;
    }
    match ss_size(mi_size, subx, suby) {
        Some(plane_size) => max_tx_size(plane_size),
        None => 0,
    }
}

// The largest transform of each block size in planes 1 and 2.
pub fn uv_limit_table(subx: bool, suby: bool) -> [u8; 13]
    ensures { result ≡ by_size (uv_limit subx suby) }
{
    array::from_fn(
        move |size|
            requires { size ≤ 12 }
        { uv_limit(subx, suby, BlockSize { number: size as u8 }) },
    )
}
