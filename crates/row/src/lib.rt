// The cells of a superblock row, as LfRowCells::new of the Rust's superblock_loop_filter.rs makes them.
#![tactic(auto)]

ghost use Rattle.std.specs.Prelude.{◌≡◌, false};
ghost use Rattle.base.specs.Fault.{returned_of};
ghost use Rattle.base.specs.Filled.{filled};
ghost use Rattle.base.specs.First.{found, first_found};
ghost use Rattle.base.specs.Outcome.{Answers};
ghost use Rattle.row.specs.Row.{word_at, bad_level, too_short, bad_at, row};
ghost use Rattle.row.specs.RowLists.{lists_of};

pub mod mode_info;
pub mod numbers;
mod word;

use base::depth::is_supported;
use base::fault::Fault;
use base::search::first_place;
use geometry::{bad_frame_size, bad_start, bad_subsampling, cell_count_unchecked};
use mode_info::{ModeInfoLists, first_bad_block};
use numbers::RowNumbers;
use word::WordTables;

// The first level above 63.
fn first_bad_level(levels: &[u8; 64]) -> Option<usize>
    ensures { result ≡ first_found (bad_level levels.now) 64 }
{
    first_place(64, |k| 63 < levels[k])
}

// The work, once the tests are made. The lists start at the row's first cell.
#[tactic(auto, using(crate::specs::RowLaws::long, crate::specs::RowLaws::holds))]
fn row_cells_unchecked(
    lists: ModeInfoLists,
    levels: &[u8; 64],
    subx: bool,
    suby: bool,
    count: usize,
    cells: &mut [u32],
)
    requires { (found (bad_level levels.now) 64 ≡ false) × (too_short (lists_of lists) cells.old count ≡ false) × (found (bad_at (lists_of lists)) count ≡ false) }
    ensures { cells.new ≡ filled (word_at (lists_of lists.entry) levels.now subx suby) 0 count cells.old }
{
    let tables = WordTables::new_unchecked(levels, subx, suby);
    // By an index, the place in six lists besides: of iter_mut a proof knows nothing but the length.
    for k in 0..count {
        cells[k] = tables.word_unchecked(lists.at_unchecked(k));
    }
}

// Takes any lists and any numbers. A refusal leaves every word as it was. Tests 1 to 5 are those of a pass too: one function of all
// would tell what passed in one fact, which each caller would take apart again.
#[tactic(auto, unfolding(crate::specs::Row::row, crate::specs::Row::too_short), using(base::specs::First::place_found, base::specs::First::no_place, geometry::specs::FrameLaws::sized, geometry::specs::FrameLaws::started, crate::specs::RowLaws::long))]
pub fn row_cells(
    lists: ModeInfoLists,
    levels: &[u8; 64],
    n: RowNumbers,
    cells: &mut [u32],
) -> Result<(), Fault>
    ensures { Answers (row (lists_of lists.entry) levels.now n.sharpness n.bit_depth n.sub_x n.sub_y n.mi_cols n.mi_rows n.mi_row cells.old) (returned_of result) cells.old cells.new }
{
    if 7 < n.sharpness {
        return Err(Fault::Sharpness);
    }
    if !is_supported(n.bit_depth) {
        return Err(Fault::Depth);
    }
    if bad_subsampling(n.sub_x, n.sub_y) {
        return Err(Fault::Subsampling);
    }
    if bad_frame_size(n.mi_cols, n.mi_rows) {
        return Err(Fault::FrameSize);
    }
    if bad_start(n.mi_row, n.mi_rows) {
        return Err(Fault::Row);
    }
    if let Some(k) = first_bad_level(levels) {
        return Err(Fault::Level(k));
    }
    let count = cell_count_unchecked(n.mi_row, n.mi_cols, n.mi_rows);
    if lists.are_short(count) | (cells.len() < count) {
        return Err(Fault::Short);
    }
    if let Some(k) = first_bad_block(lists.mi_sizes, lists.tx_sizes, lists.skips, count) {
        return Err(Fault::Block(k));
    }
    row_cells_unchecked(lists, levels, n.sub_x == 1, n.sub_y == 1, count, cells);
    Ok(())
}
