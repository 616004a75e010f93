// Prints the superblock of the built-in row, 16 by 8 samples with a step between its blocks, before and after a pass.
use crate::case_s::{MI_COLS, MI_ROWS, made_row};
use crate::output::{print_numbers, refused};
use base::fault::Fault;
use geometry::pass_numbers::PassNumbers;
use std::{array, io};
use superblock_pass::superblock_loop_filter_cells;
use window::WindowShape;

// A cell of the row without its level.
const WITHOUT_LEVEL: u32 = 0x1150_0000;

// The step is 8 samples higher in each row: up to 40 it is smoothed, and what is higher is taken for an edge of the picture.
fn sample(k: usize) -> u16 {
    let row = k / 16 % 8;
    if k % 16 < 8 {
        100
    } else {
        100 + 8 * row as u16
    }
}

fn superblock() -> [u16; 128] {
    array::from_fn(sample)
}

fn print_rows(rt: &impl Print, samples: &[u16; 128]) -> io::Result<()> {
    for row in samples.chunks(16) {
        print_numbers(rt, row)?;
    }
    Ok(())
}

// Sharpness 0, depth 8, the vertical edges of plane 0.
fn filter(samples: &mut [u16], cells: &[u32]) -> Result<(), Fault> {
    let window = WindowShape {
        width: 16,
        height: 8,
        stride: 16,
        top: 0,
    };
    let numbers = PassNumbers {
        sharpness: 0,
        bit_depth: 8,
        sub_x: 0,
        sub_y: 0,
        mi_cols: MI_COLS,
        mi_rows: MI_ROWS,
        mi_row: 0,
        mi_col: 0,
        plane: 0,
        pass: 0,
    };
    superblock_loop_filter_cells(samples, window, cells, numbers)
}

// The place of the refusal is 64 times the edge and the position along it: edge 2 lies between the blocks.
pub(crate) fn print_superblock(rt: &impl Print) -> io::Result<()> {
    let cells = made_row().map_err(refused)?;
    println!(rt; "the superblock of these blocks, 16 by 8 samples")?;
    let mut samples = superblock();
    println!(rt; "before the pass over its vertical edges")?;
    print_rows(rt, &samples)?;
    filter(&mut samples, &cells).map_err(refused)?;
    println!(rt; "after")?;
    print_rows(rt, &samples)?;
    if let Err(fault) = filter(&mut superblock(), &[cells[0], WITHOUT_LEVEL]) {
        println!(rt; "with its second cell without level: {fault}")?;
    }
    Ok(())
}
