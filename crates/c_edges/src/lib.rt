// The facts of one position.
// The crate springspade exports its functions to C, and says what their arguments are.
#![tactic(auto)]

ghost use Rattle.std.specs.Prelude.{◌≡◌};
ghost use Rattle.base.specs.Fault.{number_of};
ghost use Rattle.base.specs.Outcome.{accepted, refused};
ghost use Rattle.edges.specs.Edge.{superblock_filter_edge};
ghost use Rattle.c_edges.specs.EdgeEntry.{entry_of, mi_of};

use base::fault::Fault;
use edges::numbers::EdgeNumbers;
use edges::{SuperblockFilterEdge, SuperblockFilterMi};
use geometry::Luma;

// Numbers and flags and no Result, since it crosses to C.
//
// The answer of springspade_edge: number and place 0 with the facts, or the number of the refusal with zeros.
#[repr(C)]
#[derive(Clone, Copy)]
pub struct Edge {
    // 0, or the number of the refusal.
    pub number: u32,
    // Where, or 0.
    pub place: u32,
    // The position's column in luma samples.
    pub x: usize,
    // The position's row in luma samples.
    pub y: usize,
    // The column of the cell that it reads, in units of 8 luma samples.
    pub loop_col: usize,
    // The row of that cell.
    pub loop_row: usize,
    // Whether it lies on an edge of its block.
    pub is_block_edge: bool,
    // Whether it lies on an edge of its transform.
    pub is_tx_edge: bool,
    // Whether its edge has a number that is a multiple of 8.
    pub is_32_edge: bool,
    // Whether it lies inside the frame, and its edge is not the frame's left or upper border.
    pub on_screen: bool,
    // Whether it is filtered, if its level is above 0.
    pub apply_filter: bool,
    // With which filter_size of springspade_line.
    pub filter_size: u8,
}

impl From<SuperblockFilterEdge> for Edge {
    ghost from_gives = { λ facts entry. entry ≡ entry_of (accepted facts) };

    fn from(facts: SuperblockFilterEdge) -> Edge {
        let Luma(x) = facts.x;
        let Luma(y) = facts.y;
        Edge {
            number: 0,
            place: 0,
            x,
            y,
            loop_col: facts.loop_col,
            loop_row: facts.loop_row,
            is_block_edge: facts.is_block_edge,
            is_tx_edge: facts.is_tx_edge,
            is_32_edge: facts.is_32_edge,
            on_screen: facts.on_screen,
            apply_filter: facts.apply_filter,
            filter_size: facts.size,
        }
    }
}

// No refusal of a position has a place.
impl From<Fault> for Edge {
    ghost from_gives = { λ fault entry. entry ≡ entry_of (refused (number_of fault) 0) };

    fn from(fault: Fault) -> Edge {
        Edge {
            number: fault.number(),
            place: 0,
            x: 0,
            y: 0,
            loop_col: 0,
            loop_row: 0,
            is_block_edge: false,
            is_tx_edge: false,
            is_32_edge: false,
            on_screen: false,
            apply_filter: false,
            filter_size: 0,
        }
    }
}

// The facts of position i on an edge of the superblock at mi_row, mi_col.
pub fn springspade_edge(
    sub_x: u8,
    sub_y: u8,
    mi_cols: usize,
    mi_rows: usize,
    mi_row: usize,
    mi_col: usize,
    pass: u8,
    edge: usize,
    i: usize,
    mi_size: u8,
    tx_size: u8,
    skip: u8,
    ref_frame: i32,
) -> Edge
    ensures { result ≡ entry_of (superblock_filter_edge pass mi_row mi_col edge i sub_x sub_y mi_cols mi_rows (mi_of mi_size tx_size skip ref_frame)) }
{
    let mi = SuperblockFilterMi {
        mi_size,
        tx_sz: tx_size,
        skip,
        ref_frame,
    };
    let n = EdgeNumbers {
        sub_x,
        sub_y,
        mi_cols,
        mi_rows,
        mi_row,
        mi_col,
        pass,
        edge,
        i,
    };
    match edges::superblock_filter_edge(n, mi) {
        Ok(facts) => Edge::from(facts),
        Err(fault) => Edge::from(fault),
    }
}
