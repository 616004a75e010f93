// Where a pass works: the frame, the superblock, the two directions, the two kinds of coordinate.
#![tactic(auto)]

ghost use Rattle.std.specs.Prelude.{◌≡◌, ◌*◌, ◌≤◌};
ghost use Rattle.geometry.specs.Frame.{bad_subsampling, bad_frame_size, bad_start, cells_from};
ghost use Rattle.geometry.specs.Coordinates.{shl, shr};

pub mod pass_numbers;

// Pass 0 filters across vertical edges, pass 1 across horizontal ones.
#[derive(Clone, Copy, Debug, PartialEq, Eq)]
pub enum Pass {
    Vertical,
    Horizontal,
}

// A superblock of a plane: the subsampling that holds in the plane, MiCols and MiRows of the frame, and the superblock's
// row and column, all in cells of 8 by 8 luma samples.
#[derive(Clone, Copy)]
pub struct Superblock {
    pub subx: bool,
    pub suby: bool,
    pub cols: usize,
    pub rows: usize,
    pub row: usize,
    pub col: usize,
}

// Shifts by a subsampling, with the bounds that sums need.

#[tactic(auto, using(crate::specs::CoordinatesLaws::shift_right))]
pub fn shr(n: usize, sub: bool) -> usize
    ensures { (result ≡ shr n sub) × (result ≤ n) }
{
    n >> u32::from(sub)
}

#[tactic(auto, using(crate::specs::CoordinatesLaws::shift_left))]
pub fn shl_unchecked(n: usize, sub: bool) -> usize
    requires { n ≤ 65536 }
    ensures { (result ≡ shl n sub) × (result ≤ 2 * n) }
{
    n << u32::from(sub)
}

// Both coordinates are tuple structs, as document 01 wants, which hold no fact: a bound such as x.0 < 65792 is a clause.

// A coordinate in luma samples, which the edge tests take.
#[derive(Clone, Copy)]
pub struct Luma(pub usize);

// A coordinate in the samples of a plane, which an index into a window is made of.
#[derive(Clone, Copy)]
pub struct Plane(pub usize);

impl Luma {
    // The one way from luma samples to a plane's own.
    pub fn in_plane(self, sub: bool) -> Plane
        ensures { (result.0 ≡ shr self.0 sub) × (result.0 ≤ self.0) }
    {
        Plane(shr(self.0, sub))
    }
}

// Document 01's tests 3, 4, and 5 and 10.

#[tactic(auto, unfolding(crate::specs::Frame::bad_subsampling))]
pub fn bad_subsampling(x: u8, y: u8) -> bool
    ensures { result ≡ bad_subsampling x y }
{
    (1 < x) | (1 < y)
}

#[tactic(auto, unfolding(crate::specs::Frame::bad_frame_size))]
pub fn bad_frame_size(cols: usize, rows: usize) -> bool
    ensures { result ≡ bad_frame_size cols rows }
{
    (cols == 0) | (8192 < cols) | (rows == 0) | (8192 < rows)
}

// Of a row with MiRows, of a column with MiCols.
#[tactic(auto, unfolding(crate::specs::Frame::bad_start))]
pub fn bad_start(start: usize, count: usize) -> bool
    ensures { result ≡ bad_start start count }
{
    (start % 8 != 0) | (count <= start)
}

// The cells of the superblock row that starts at row, of a frame that was tested.
pub fn cell_count_unchecked(row: usize, cols: usize, rows: usize) -> usize
    requires { (row ≤ rows) × (cols ≤ 8192) }
    ensures { result ≡ cells_from row cols rows }
{
    (rows - row).min(8) * cols
}
