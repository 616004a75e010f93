// The mode info of the cells of a row.
ghost use Rattle.std.specs.Prelude.{◌≡◌, ◌≤◌, length};
ghost use Rattle.base.specs.First.{first_found};
ghost use Rattle.row.specs.Row.{bad_block_at, lists_short};
ghost use Rattle.row.specs.RowLaws.{Holds};
ghost use Rattle.row.specs.RowLists.{lists_of, mi_at};

use base::search::first_place;
use blocks::mode_info::bad_block;

// Of one cell: MiSize, TxSize, Skip, RefFrame of list 0, YMode, SegmentId. Numbers, as they are lent: any value is taken and tested.
#[derive(Clone, Copy, Debug, PartialEq, Eq)]
pub struct CellMi {
    pub mi_size: u8,
    pub tx_size: u8,
    pub skip: u8,
    pub ref_frame: i32,
    pub y_mode: u8,
    pub segment_id: u8,
}

// Of many cells in raster order, as the C interface lends it: a list of each value.
#[derive(Clone, Copy)]
pub struct ModeInfoLists<'a> {
    pub mi_sizes: &'a [u8],
    pub tx_sizes: &'a [u8],
    pub skips: &'a [u8],
    pub ref_frames: &'a [i32],
    pub y_modes: &'a [u8],
    pub segment_ids: &'a [u8],
}

impl<'a> ModeInfoLists<'a> {
    // Whether a list has fewer than count entries.
    #[tactic(auto, unfolding(crate::specs::Row::lists_short))]
    pub(crate) fn are_short(self, count: usize) -> bool
        ensures { result ≡ lists_short (lists_of self.entry) count }
    {
        (self.mi_sizes.len() < count)
            | (self.tx_sizes.len() < count)
            | (self.skips.len() < count)
            | (self.ref_frames.len() < count)
            | (self.y_modes.len() < count)
            | (self.segment_ids.len() < count)
    }

    pub(crate) fn at_unchecked(self, k: usize) -> CellMi
        requires { Holds (lists_of self) k }
        ensures { result ≡ mi_at (lists_of self.entry) k }
    {
        CellMi {
            mi_size: self.mi_sizes[k],
            tx_size: self.tx_sizes[k],
            skip: self.skips[k],
            ref_frame: self.ref_frames[k],
            y_mode: self.y_modes[k],
            segment_id: self.segment_ids[k],
        }
    }
}

// The first of count cells with a bad size, transform or skip: it takes the three lists that are tested, as its definition does.
pub(crate) fn first_bad_block(
    mi_sizes: &[u8],
    tx_sizes: &[u8],
    skips: &[u8],
    count: usize,
) -> Option<usize>
    requires { (count ≤ length mi_sizes.now) × (count ≤ length tx_sizes.now) × (count ≤ length skips.now) }
    ensures { result ≡ first_found (bad_block_at mi_sizes.now tx_sizes.now skips.now) count }
{
    first_place(count, |k| { bad_block(mi_sizes[k], tx_sizes[k], skips[k]) })
}
