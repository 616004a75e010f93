// Prints the packed cells of a built-in row: two blocks side by side, case S of document 01.
use crate::output::{refused, yes_or_no};
use base::fault::Fault;
use cells::LfCell;
use row::mode_info::ModeInfoLists;
use row::numbers::RowNumbers;
use row::row_cells;
use std::io;

// Both blocks have 8 by 8 samples, and the frame has no other cells.
pub(crate) const MI_SIZE: u8 = 3;

pub(crate) const TX_SIZE: u8 = 1;

pub(crate) const SKIP: u8 = 0;

pub(crate) const INTRA: i32 = 0;

pub(crate) const MI_COLS: usize = 2;

pub(crate) const MI_ROWS: usize = 1;

// Every entry of the level table is 32, so mode 0 and segment 0 stand for any.
pub(crate) fn made_row() -> Result<[u32; 2], Fault> {
    let mut cells = [0; 2];
    let lists = ModeInfoLists {
        mi_sizes: &[MI_SIZE; 2],
        tx_sizes: &[TX_SIZE; 2],
        skips: &[SKIP; 2],
        ref_frames: &[INTRA; 2],
        y_modes: &[0; 2],
        segment_ids: &[0; 2],
    };
    let n = RowNumbers {
        sharpness: 0,
        bit_depth: 8,
        sub_x: 0,
        sub_y: 0,
        mi_cols: MI_COLS,
        mi_rows: MI_ROWS,
        mi_row: 0,
    };
    row_cells(lists, &[32; 64], n, &mut cells)?;
    Ok(cells)
}

fn print_cell(rt: &impl Print, index: usize, word: u32) -> io::Result<()> {
    let cell = LfCell::from(word);
    println!(rt;
        "cell {index}, word {word:08x}: width {} {}, height {} {}, transform {}, chroma transform {}, skipped {}, level {}",
        cell.width0,
        cell.width1,
        cell.height0,
        cell.height1,
        cell.tx,
        cell.uvtx,
        yes_or_no(cell.skipped),
        cell.level
    )
}

pub(crate) fn print_row(rt: &impl Print) -> io::Result<()> {
    let cells = made_row().map_err(refused)?;
    println!(rt;
        "cells of two 8x8 blocks; width and height are log2 in 8-sample blocks, for subsampling 0 and 1"
    )?;
    for (index, word) in cells.iter().enumerate() {
        print_cell(rt, index, *word)?;
    }
    Ok(())
}
