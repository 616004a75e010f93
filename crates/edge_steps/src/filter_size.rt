// The filter size of a position (8.8.3).
ghost use Rattle.std.specs.Prelude.{◌≡◌};
ghost use Rattle.edge_steps.specs.FilterSize.{base_size, at_last, filter_size};

use geometry::{Luma, Pass, Superblock};

// Transforms and filter sizes are the standard's numbers and no enum: 8.8.3 computes with them, and keys pack them.
const TX_4X4: u8 = 0;

const TX_8X8: u8 = 1;

const TX_16X16: u8 = 2;

fn base_size(tx_sz: u8, is_32_edge: bool) -> u8
    ensures { result ≡ base_size tx_sz is_32_edge }
{
    if (tx_sz == TX_4X4) & is_32_edge {
        return TX_8X8;
    }
    tx_sz.min(TX_16X16)
}

fn at_last(s: Superblock, pass: Pass, x: Luma, y: Luma) -> bool
    ensures { result ≡ at_last s pass x.0 y.0 }
{
    match pass {
        Pass::Vertical => s.subx & (x.0 / 8 + 1 == s.cols),
        Pass::Horizontal => s.suby & (y.0 / 8 + 1 == s.rows),
    }
}

#[tactic(auto, unfolding(crate::specs::FilterSize::filter_size))]
pub fn filter_size(s: Superblock, pass: Pass, tx_sz: u8, is_32_edge: bool, x: Luma, y: Luma) -> u8
    ensures { result ≡ filter_size s pass tx_sz is_32_edge x.0 y.0 }
{
    let base = base_size(tx_sz, is_32_edge);
    if (base == TX_16X16) & at_last(s, pass, x, y) {
        return TX_8X8;
    }
    base
}
