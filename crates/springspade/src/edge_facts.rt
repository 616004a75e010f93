// The facts of one position, for C.
ghost use Rattle.std.specs.Prelude.{◌≡◌};
ghost use Rattle.edges.specs.Edge.{superblock_filter_edge};
ghost use Rattle.c_edges.specs.EdgeEntry.{entry_of, mi_of};

use c_edges::Edge;

// The facts of position i on an edge of the superblock at mi_row, mi_col. mi_cols, mi_rows, mi_row, mi_col count 8 luma
// samples. sub_x, sub_y, tx_size are those of the plane: sub_x, sub_y are 0 in plane 0. pass: 0 vertical, 1 horizontal.
// Pass 0 has edge below 16 >> sub_x and i below 64 >> sub_y, pass 1 has edge below 16 >> sub_y and i below 64 >> sub_x.
// The cell: mi_size 0 (4x4) to 12 (64x64), tx_size 0 (4x4) to 3 (32x32), skip 0 or 1, ref_frame 0 intra, above 0 inter.
// Refusals: 3 to 5 as springspade_row; 8 mi_size, tx_size or skip too large; 9 pass above 1; 10 mi_col no multiple of
// 8 below mi_cols; 16 edge or i too large.
#[unsafe(no_mangle)]
pub extern "C" fn springspade_edge(
    sub_x: u8,
    sub_y: u8,
    mi_cols: usize,
    mi_rows: usize,
    mi_row: usize,
    mi_col: usize,
    pass: u8,
    edge: usize,
    i: usize,
    mi_size: u8,
    tx_size: u8,
    skip: u8,
    ref_frame: i32,
) -> Edge
    ensures { result ≡ entry_of (superblock_filter_edge pass mi_row mi_col edge i sub_x sub_y mi_cols mi_rows (mi_of mi_size tx_size skip ref_frame)) }
{
    c_edges::springspade_edge(
        sub_x, sub_y, mi_cols, mi_rows, mi_row, mi_col, pass, edge, i, mi_size, tx_size, skip,
        ref_frame,
    )
}
