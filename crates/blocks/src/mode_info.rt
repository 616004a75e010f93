// What the loop filter reads of a cell's mode info.
ghost use Rattle.std.specs.Prelude.{◌≡◌};
ghost use Rattle.blocks.specs.ModeInfo.{bad_block, sb_size, is_intra};

const BLOCK_16X16: u8 = 6;

// Document 01's test 8. Numbers and no enums: they arrive as lent bytes, where any value may stand.
#[tactic(auto, unfolding(crate::specs::ModeInfo::bad_block))]
pub fn bad_block(mi_size: u8, tx_size: u8, skip: u8) -> bool
    ensures { result ≡ bad_block mi_size tx_size skip }
{
    (12 < mi_size) | (3 < tx_size) | (1 < skip)
}

// The size that decides where block edges are.
#[tactic(auto, unfolding(crate::specs::ModeInfo::sb_size))]
pub fn sb_size(sub: bool, mi_size: u8) -> u8
    ensures { result ≡ sb_size sub mi_size }
{
    if sub {
        mi_size.max(BLOCK_16X16)
    } else {
        mi_size
    }
}

// Of any number, as references arrive.
#[tactic(auto, unfolding(crate::specs::ModeInfo::is_intra))]
pub fn is_intra(ref_frame: i32) -> bool
    ensures { result ≡ is_intra ref_frame }
{
    !(0 < ref_frame)
}
