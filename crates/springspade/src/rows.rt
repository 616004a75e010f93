// The cells of a superblock row, and a cell read from its word, for C.
ghost use Rattle.std.specs.Prelude.{◌≡◌};
ghost use Rattle.base.specs.Outcome.{Answers};
ghost use Rattle.row.specs.Row.{mode_info, row};
ghost use Rattle.c_border.specs.Border.{numbers_of};
ghost use Rattle.cells.specs.Cell.{cell_of};

use c_border::Refusal;
use cells::LfCell;

// Packs the cells of the superblock row at mi_row into the front of cells; words behind them are left.
// mi_row, mi_cols, mi_rows count 8 luma samples. The lists start at the row's first cell, row by row, mi_cols to a row,
// min(8, mi_rows - mi_row) rows: mi_sizes 0 (4x4) to 12 (64x64), tx_sizes 0 (4x4) to 3 (32x32), skips 0 or 1,
// ref_frames 0 intra, 1 last, 2 golden, 3 altref, segment_ids 0 to 7. levels: the 64 of springspade_level_table.
// Refusals: 1 sharpness above 7; 2 bit_depth not 8, 10, 12; 3 sub_x, sub_y above 1; 4 mi_cols, mi_rows 0 or above 8192;
// 5 mi_row no multiple of 8 below mi_rows; 6 level above 63 (place: entry); 7 short list; 8 bad cell (place: cell).
#[unsafe(no_mangle)]
pub extern "C" fn springspade_row(
    mi_sizes: &[u8],
    tx_sizes: &[u8],
    skips: &[u8],
    ref_frames: &[i32],
    y_modes: &[u8],
    segment_ids: &[u8],
    levels: &[u8; 64],
    sharpness: u8,
    bit_depth: u8,
    sub_x: u8,
    sub_y: u8,
    mi_cols: usize,
    mi_rows: usize,
    mi_row: usize,
    cells: &mut [u32],
) -> Refusal
    ensures { Answers (row (mode_info mi_sizes.now tx_sizes.now skips.now ref_frames.now y_modes.now segment_ids.now) levels.now sharpness bit_depth sub_x sub_y mi_cols mi_rows mi_row cells.old) (numbers_of result) cells.old cells.new }
{
    c_row::springspade_row(
        mi_sizes,
        tx_sizes,
        skips,
        ref_frames,
        y_modes,
        segment_ids,
        levels,
        sharpness,
        bit_depth,
        sub_x,
        sub_y,
        mi_cols,
        mi_rows,
        mi_row,
        cells,
    )
}

// The fields of a cell's word. Takes any word; its low 12 bits are not read.
#[unsafe(no_mangle)]
pub extern "C" fn springspade_cell(word: u32) -> LfCell
    ensures { result ≡ cell_of word }
{
    c_row::springspade_cell(word)
}
