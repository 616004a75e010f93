// The numbers of a pass, which travel together.

// Plain numbers, any of which is taken and tested, since they cross from C.
//
// The frame's, the superblock's, and which plane and pass.
#[repr(C)]
#[derive(Clone, Copy)]
pub struct PassNumbers {
    // 0 to 7.
    pub sharpness: u8,
    // 8, 10 or 12.
    pub bit_depth: u8,
    // Whether the frame's planes 1 and 2 are subsampled across: 0 or 1.
    pub sub_x: u8,
    // Whether they are subsampled down: 0 or 1.
    pub sub_y: u8,
    // The frame's width in units of 8 luma samples, 1 to 8192.
    pub mi_cols: usize,
    // The frame's height in the same units, 1 to 8192.
    pub mi_rows: usize,
    // The superblock's first row, a multiple of 8 below mi_rows.
    pub mi_row: usize,
    // The superblock's first column, a multiple of 8 below mi_cols.
    pub mi_col: usize,
    // 0 for luma, 1 and 2 for chroma.
    pub plane: u8,
    // 0 for vertical edges, 1 for horizontal ones.
    pub pass: u8,
}
