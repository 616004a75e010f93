// The numbers of a position, which travel together.

// Of which frame, superblock, pass and edge. Plain numbers: any are taken and tested. A record of its own, since a position
// has no depth, sharpness or plane; those of passes and rows are laid out for C.
#[derive(Clone, Copy, Debug, PartialEq, Eq)]
pub struct EdgeNumbers {
    // The subsampling that holds in the plane: 0 or 1.
    pub sub_x: u8,
    pub sub_y: u8,
    pub mi_cols: usize,
    pub mi_rows: usize,
    pub mi_row: usize,
    pub mi_col: usize,
    pub pass: u8,
    pub edge: usize,
    // The position on the edge.
    pub i: usize,
}
