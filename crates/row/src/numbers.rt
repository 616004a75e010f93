// The numbers of a row, which travel together.

// Plain numbers, any of which is taken and tested, since they cross from C.
//
// The numbers of springspade_row: the frame's, and the row's.
#[repr(C)]
#[derive(Clone, Copy)]
pub struct RowNumbers {
    // 0 to 7.
    pub sharpness: u8,
    // 8, 10 or 12.
    pub bit_depth: u8,
    // Whether the frame's planes 1 and 2 are subsampled across: 0 or 1.
    pub sub_x: u8,
    // Whether they are subsampled down: 0 or 1.
    pub sub_y: u8,
    // The frame's width in units of 8 luma samples, 1 to 8192.
    pub mi_cols: usize,
    // The frame's height in the same units, 1 to 8192.
    pub mi_rows: usize,
    // The first row of the superblock row, a multiple of 8 below mi_rows.
    pub mi_row: usize,
}
