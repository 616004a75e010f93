// The runs of a pass: along an edge, adjacent cells that filter with equal size and level, joined to at most 16 positions.
#![tactic(auto)]

ghost use Rattle.std.specs.Prelude.{◌≡◌};
ghost use Rattle.decided.specs.Decided.{superblock_of};

mod key_cells;
mod pass_runs;
mod small_run;

use geometry::pass_numbers::PassNumbers;
use geometry::{Pass, Superblock};
pub use pass_runs::PassRuns;
pub use small_run::SmallRun;

// The superblock of a plane, of numbers that are tested: plane 0 counts as not subsampled. A function and no From, since what it makes
// of numbers that are not tested is no superblock of a frame.
pub fn superblock_of(n: PassNumbers) -> Superblock
    ensures { result ≡ superblock_of n.sub_x n.sub_y n.mi_cols n.mi_rows n.mi_row n.mi_col n.plane }
{
    let chroma = 0 < n.plane;
    Superblock {
        subx: chroma & (n.sub_x == 1),
        suby: chroma & (n.sub_y == 1),
        cols: n.mi_cols,
        rows: n.mi_rows,
        row: n.mi_row,
        col: n.mi_col,
    }
}

// Positions first, first + 1, .. of an edge, count of them, all with one size and one level. Level 0 filters nothing.
#[derive(Clone, Copy)]
pub struct EdgeRun {
    pub edge: usize,
    pub first: usize,
    pub count: usize,
    // Size and level apart and no Key, as definitions and run sheet have them. The size is the standard's number, which 8.8.3 computes.
    pub size: u8,
    pub level: u8,
}
