// The facts of one position of a superblock, plane and pass (8.8.2).
#![tactic(auto)]

ghost use Rattle.std.specs.Prelude.{◌≡◌, ◌≤◌, ◌<◌};
ghost use Rattle.base.specs.Fault.{outcome_of};
ghost use Rattle.blocks.specs.ModeInfoLaws.{Block};
ghost use Rattle.edges.specs.Edge.{block_edge, edge_facts, superblock_filter_edge};

pub mod numbers;

use base::fault::Fault;
use blocks::block_size::BlockSize;
use blocks::mode_info::{bad_block, is_intra, sb_size};
use blocks::partition::{num_8x8_high, num_8x8_wide};
use edge_steps::filter_size::filter_size;
use edge_steps::superblock_filter::{
    apply_filter, is_32_edge, is_tx_edge_unchecked, loop_cell_unchecked, on_screen,
};
use geometry::{Luma, Pass, Superblock, bad_frame_size, bad_start, bad_subsampling};
use numbers::EdgeNumbers;
use pass_edges::{edge_count, edge_len, pass_of};
use positions::{EdgePosition, PlacedSuperblock};

// What an edge reads of its cell: MiSize, the transform that holds in the plane, skip, and reference 0. Numbers and no enums, as C lends
// them: any value is taken and tested.
#[derive(Clone, Copy, Debug, PartialEq, Eq)]
pub struct SuperblockFilterMi {
    pub mi_size: u8,
    pub tx_sz: u8,
    pub skip: u8,
    pub ref_frame: i32,
}

#[derive(Clone, Copy)]
pub struct SuperblockFilterEdge {
    pub x: Luma,
    pub y: Luma,
    pub loop_col: usize,
    pub loop_row: usize,
    pub is_block_edge: bool,
    pub is_tx_edge: bool,
    pub is_32_edge: bool,
    pub on_screen: bool,
    pub apply_filter: bool,
    // The standard's number, which 8.8.3 computes. It stands of any position, filtered or not, so that flag and size are no Option.
    pub size: u8,
}

#[tactic(auto, unfolding(edge_steps::specs::SuperblockFilter::is_block_edge), using(blocks::specs::ModeInfoLaws::sb_size_small, blocks::specs::BlockSizesLaws::wide_cells, blocks::specs::BlockSizesLaws::high_cells))]
fn is_block_edge(s: Superblock, pass: Pass, x: Luma, y: Luma, mi_size: u8) -> bool
    requires { mi_size ≤ 12 }
    ensures { result ≡ block_edge s pass x.0 y.0 mi_size }
{
    match pass {
        Pass::Vertical => {
            let wide = usize::from(num_8x8_wide(BlockSize {
                number: sb_size(s.subx, mi_size),
            }));
            x.0 % (8 * wide) == 0
        }
        Pass::Horizontal => {
            let high = usize::from(num_8x8_high(BlockSize {
                number: sb_size(s.suby, mi_size),
            }));
            y.0 % (8 * high) == 0
        }
    }
}

// The work without the tests, for a caller that has made them. Inlined, since called with the position in memory it took 1.4 times as long.
#[inline(always)]
#[tactic(auto, unfolding(crate::specs::Edge::edge_facts))]
pub fn superblock_filter_edge_unchecked(
    at: EdgePosition,
    mi: SuperblockFilterMi,
) -> SuperblockFilterEdge
    requires { Block mi.mi_size mi.tx_sz mi.skip }
    ensures { result ≡ edge_facts at.s.of at.pass at.edge at.i mi }
{
    let s = at.s.of;
    let x = at.luma_x();
    let y = at.luma_y();
    let block = is_block_edge(s, at.pass, x, y, mi.mi_size);
    let transform = is_tx_edge_unchecked(at.s, at.pass, at.edge, x, mi.tx_sz);
    let is_32 = is_32_edge(at.edge);
    let screen = on_screen(at.s, at.pass, x, y);
    let intra = is_intra(mi.ref_frame);
    let size = filter_size(s, at.pass, mi.tx_sz, is_32, x, y);
    SuperblockFilterEdge {
        x,
        y,
        loop_col: loop_cell_unchecked(x, s.subx),
        loop_row: loop_cell_unchecked(y, s.suby),
        is_block_edge: block,
        is_tx_edge: transform,
        is_32_edge: is_32,
        on_screen: screen,
        apply_filter: apply_filter(screen, block, transform, intra, mi.skip == 1),
        size,
    }
}

// Takes any numbers. The subsampling and the transform are those that hold in the plane.
#[tactic(auto, unfolding(crate::specs::Edge::superblock_filter_edge, crate::specs::Edge::off_grid), using(blocks::specs::ModeInfoLaws::block, positions::specs::PositionsLaws::placed))]
pub fn superblock_filter_edge(
    n: EdgeNumbers,
    mi: SuperblockFilterMi,
) -> Result<SuperblockFilterEdge, Fault>
    ensures { outcome_of result ≡ superblock_filter_edge n.pass n.mi_row n.mi_col n.edge n.i n.sub_x n.sub_y n.mi_cols n.mi_rows mi }
{
    if bad_subsampling(n.sub_x, n.sub_y) {
        return Err(Fault::Subsampling);
    }
    if bad_frame_size(n.mi_cols, n.mi_rows) {
        return Err(Fault::FrameSize);
    }
    if bad_start(n.mi_row, n.mi_rows) {
        return Err(Fault::Row);
    }
    if bad_block(mi.mi_size, mi.tx_sz, mi.skip) {
        return Err(Fault::Block(0));
    }
    if 1 < n.pass {
        return Err(Fault::PlaneOrPass);
    }
    if bad_start(n.mi_col, n.mi_cols) {
        return Err(Fault::Column);
    }
    let s = Superblock {
        subx: n.sub_x == 1,
        suby: n.sub_y == 1,
        cols: n.mi_cols,
        rows: n.mi_rows,
        row: n.mi_row,
        col: n.mi_col,
    };
    let direction = pass_of(n.pass);
    if (edge_count(s, direction) <= n.edge) | (edge_len(s, direction) <= n.i) {
        return Err(Fault::Position);
    }
    let at = EdgePosition {
        s: PlacedSuperblock { of: s },
        pass: direction,
        edge: n.edge,
        i: n.i,
    };
    Ok(superblock_filter_edge_unchecked(at, mi))
}
