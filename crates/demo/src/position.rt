// Prints the facts of some positions of the built-in row.
use crate::case_s::{INTRA, MI_COLS, MI_ROWS, MI_SIZE, SKIP, TX_SIZE};
use crate::output::{refused, yes_or_no};
use edges::numbers::EdgeNumbers;
use edges::{SuperblockFilterMi, superblock_filter_edge};
use std::io;

// The first position of a vertical edge of plane 0.
fn print_edge(rt: &impl Print, edge: usize) -> io::Result<()> {
    let mi = SuperblockFilterMi {
        mi_size: MI_SIZE,
        tx_sz: TX_SIZE,
        skip: SKIP,
        ref_frame: INTRA,
    };
    let n = EdgeNumbers {
        sub_x: 0,
        sub_y: 0,
        mi_cols: MI_COLS,
        mi_rows: MI_ROWS,
        mi_row: 0,
        mi_col: 0,
        pass: 0,
        edge,
        i: 0,
    };
    let found = superblock_filter_edge(n, mi).map_err(refused)?;
    println!(rt;
        "edge {edge}: x {}, block edge {}, transform edge {}, filtered {}, size {}",
        found.x.0,
        yes_or_no(found.is_block_edge),
        yes_or_no(found.is_tx_edge),
        yes_or_no(found.apply_filter),
        found.size
    )
}

// Edge 0 is the frame's border, edges 1 and 3 lie inside the blocks, edge 2 between them.
pub(crate) fn print_edges(rt: &impl Print) -> io::Result<()> {
    println!(rt; "vertical edges of the luma plane, at its first row")?;
    // The number of the edge is what is asked for and printed: no list is walked.
    for edge in 0..4 {
        print_edge(rt, edge)?;
    }
    Ok(())
}
