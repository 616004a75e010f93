// A pass by plain numbers, of which both passes make the same use.
ghost use Rattle.std.specs.Prelude.{◌≡◌, cond, ◌&&◌, ◌-◌, ◌%◌, ◌≤◌, ◌<◌, eqb};
ghost use Rattle.keys.specs.PlainKeys.{turned_of, pairs, Small};

use geometry::Pass;
use positions::PlacedSuperblock;

// A pass, turned so that it goes from edge to edge, across, and from cell to cell along each edge.
#[derive(Clone, Copy)]
pub(crate) struct Turned {
    // Across: the subsampling, the superblock's first cell and the number of the frame's cells.
    pub sub: bool,
    pub start: usize,
    pub count: usize,
    // Along: the subsampling, the number of the frame's cells from the superblock's first on, and how many of them may
    // have transform edges at inner edges.
    pub paired: bool,
    pub shown: u32,
    pub coded: u32,
    // Among the cells of the row: the place of the superblock's first cell, and the steps to the next across and along.
    pub from: usize,
    pub across: usize,
    pub along: usize,
    // Where a word has the logarithm of the block's extent across, and the transform.
    pub log: u32,
    pub tx: u32,
}

// Such numbers, with how large they are. Two types, since the definitions make a Turned of any superblock.
#[derive(Clone, Copy)]
pub(crate) struct SmallTurned {
    pub of: Turned,
    pub ghost small: { Small of },
}

// The columns that may have transform edges at inner edges: the last of an odd number of columns has none.
fn coded_cells(subx: bool, cols: usize, col: usize) -> u32
    requires { (col < cols) × (cols ≤ 8192) }
    ensures { result ≡ cond (subx && eqb (cols % 2) 1) (cols - 1 - col) 8 }
{
    if subx & (cols % 2 == 1) {
        (cols - 1 - col) as u32
    } else {
        8
    }
}

// The numbers of a pass.
#[tactic(auto, unfolding(crate::specs::PlainKeys::turned_of))]
pub(crate) fn turned_of(s: PlacedSuperblock, pass: Pass, chroma: bool) -> SmallTurned
    ensures { result.of ≡ turned_of s.of pass chroma }
{
    let s = s.of;
    let tx = if chroma { 20 } else { 22 };
    let of = match pass {
        Pass::Vertical => Turned {
            sub: s.subx,
            start: s.col,
            count: s.cols,
            paired: s.suby,
            shown: (s.rows - s.row) as u32,
            coded: 8,
            from: s.col,
            across: 1,
            along: s.cols,
            log: if s.subx { 28 } else { 30 },
            tx,
        },
        Pass::Horizontal => Turned {
            sub: s.suby,
            start: s.row,
            count: s.rows,
            paired: s.subx,
            shown: (s.cols - s.col) as u32,
            coded: coded_cells(s.subx, s.cols, s.col),
            from: s.col,
            across: s.cols,
            along: 1,
            log: if s.suby { 24 } else { 26 },
            tx,
        },
    };
    SmallTurned { of }
}

// Edges come in pairs, an outer and an inner one that read the same cells.
pub(crate) fn pair_count(sub: bool) -> usize
    ensures { (result ≡ pairs sub) × (result ≤ 8) }
{
    if sub { 4 } else { 8 }
}
