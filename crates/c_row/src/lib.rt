// The cells of a superblock row, and a cell read from its word.
// The crate springspade exports its functions to C, and says what their arguments are.
#![tactic(auto)]

ghost use Rattle.std.specs.Prelude.{◌≡◌};
ghost use Rattle.base.specs.Outcome.{Answers};
ghost use Rattle.cells.specs.Cell.{cell_of};
ghost use Rattle.row.specs.Row.{mode_info, row};
ghost use Rattle.c_border.specs.Border.{numbers_of};

use c_border::{Refusal, refusal_of};
use cells::LfCell;
use row::mode_info::ModeInfoLists;
use row::numbers::RowNumbers;
use row::row_cells;

// Packs the cells of the superblock row at mi_row into the front of cells; words behind them are left. The lists come one by one, and
// each kind as a number that is tested, since they cross from C.
#[tactic(auto, using(c_border::specs::BorderLaws::crossed_as, row::specs::RowLaws::row_place))]
pub fn springspade_row(
    mi_sizes: &[u8],
    tx_sizes: &[u8],
    skips: &[u8],
    ref_frames: &[i32],
    y_modes: &[u8],
    segment_ids: &[u8],
    levels: &[u8; 64],
    sharpness: u8,
    bit_depth: u8,
    sub_x: u8,
    sub_y: u8,
    mi_cols: usize,
    mi_rows: usize,
    mi_row: usize,
    cells: &mut [u32],
) -> Refusal
    ensures { Answers (row (mode_info mi_sizes.now tx_sizes.now skips.now ref_frames.now y_modes.now segment_ids.now) levels.now sharpness bit_depth sub_x sub_y mi_cols mi_rows mi_row cells.old) (numbers_of result) cells.old cells.new }
{
    let lists = ModeInfoLists {
        mi_sizes,
        tx_sizes,
        skips,
        ref_frames,
        y_modes,
        segment_ids,
    };
    let n = RowNumbers {
        sharpness,
        bit_depth,
        sub_x,
        sub_y,
        mi_cols,
        mi_rows,
        mi_row,
    };
    refusal_of(row_cells(lists, levels, n, cells))
}

// The fields of a cell's word.
pub fn springspade_cell(word: u32) -> LfCell
    ensures { result ≡ cell_of word }
{
    LfCell::from(word)
}
