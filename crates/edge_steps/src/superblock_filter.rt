// The steps of 8.8.2 at one position of a superblock, plane and pass.
ghost use Rattle.std.specs.Prelude.{◌≡◌, ◌^◌, ◌≤◌, ◌<◌};
ghost use Rattle.edge_steps.specs.SuperblockFilter.{multiple, loop_cell, last_column, is_tx_edge, is32_edge, at_border, on_screen, apply_filter};

use geometry::{Luma, Pass, shl_unchecked, shr};
use positions::PlacedSuperblock;

// A cell's column or row, on the subsampling grid. The bound is a clause here and below: document 01 wants a tuple struct, and such a
// struct holds no fact.
#[tactic(auto, unfolding(crate::specs::SuperblockFilter::loop_cell))]
pub fn loop_cell_unchecked(at: Luma, sub: bool) -> usize
    requires { at.0 < 65792 }
    ensures { result ≡ loop_cell sub at.0 }
{
    shl_unchecked(shr(at.0 / 8, sub), sub)
}

// Multiples of 2 to the power of a transform: by cases, whose divisors are constants and not 0.
fn is_multiple(n: usize, log: u8) -> bool
    requires { log ≤ 3 }
    ensures { result ≡ multiple n (2 ^ log) }
{
    match log {
        0 => n % 1 == 0,
        1 => n % 2 == 0,
        2 => n % 4 == 0,
        _ => n % 8 == 0,
    }
}

fn last_column(s: PlacedSuperblock, pass: Pass, edge: usize, x: Luma) -> bool
    requires { x.0 < 65792 }
    ensures { result ≡ last_column s.of pass edge x.0 }
{
    match pass {
        Pass::Vertical => false,
        Pass::Horizontal => {
            s.of.subx & (s.of.cols % 2 == 1) & (edge % 2 == 1) & (s.of.cols * 8 <= x.0 + 8)
        }
    }
}

// Inlined, since a call of it made the facts of a position take 10 percent longer.
#[inline(always)]
#[tactic(auto, unfolding(crate::specs::SuperblockFilter::is_tx_edge))]
pub fn is_tx_edge_unchecked(
    s: PlacedSuperblock,
    pass: Pass,
    edge: usize,
    x: Luma,
    tx_sz: u8,
) -> bool
    requires { (x.0 < 65792) × (tx_sz ≤ 3) }
    ensures { result ≡ is_tx_edge s.of pass edge x.0 tx_sz }
{
    !last_column(s, pass, edge, x) & is_multiple(edge, tx_sz)
}

#[tactic(auto, unfolding(crate::specs::SuperblockFilter::is32_edge))]
pub fn is_32_edge(edge: usize) -> bool
    ensures { result ≡ is32_edge edge }
{
    edge % 8 == 0
}

fn at_border(pass: Pass, x: Luma, y: Luma) -> bool
    ensures { result ≡ at_border pass x.0 y.0 }
{
    match pass {
        Pass::Vertical => x.0 == 0,
        Pass::Horizontal => y.0 == 0,
    }
}

#[tactic(auto, unfolding(crate::specs::SuperblockFilter::on_screen))]
pub fn on_screen(s: PlacedSuperblock, pass: Pass, x: Luma, y: Luma) -> bool
    ensures { result ≡ on_screen s.of pass x.0 y.0 }
{
    !((8 * s.of.cols <= x.0) | (8 * s.of.rows <= y.0) | at_border(pass, x, y))
}

#[tactic(auto, unfolding(crate::specs::SuperblockFilter::apply_filter))]
pub fn apply_filter(screen: bool, block: bool, transform: bool, intra: bool, skip: bool) -> bool
    ensures { result ≡ apply_filter screen block transform intra skip }
{
    screen & (block | transform & (intra | !skip))
}
