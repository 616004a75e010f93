// The word of one cell.
ghost use Rattle.std.specs.Prelude.{◌≡◌, false, ◌≤◌, min, get_or};
ghost use Rattle.base.specs.First.{found};
ghost use Rattle.blocks.specs.BlockSizes.{by_size, mi_width_log2, mi_height_log2};
ghost use Rattle.chroma_transforms.specs.ChromaTransforms.{uv_limit};
ghost use Rattle.cells.specs.Cell.{packed};
ghost use Rattle.row.specs.Row.{cell_from, bad_level};

use crate::mode_info::CellMi;
use blocks::block_size::BlockSize;
use blocks::mode_info::{is_intra, sb_size};
use blocks::partition::{mi_height_log2_table, mi_width_log2_table};
use cells::{LfCell, pack_unchecked};
use chroma_transforms::uv_limit_table;
use level_lookup::find_level;
use strength::mode_to_mode_type;

// What the words of a row are looked up in: its levels, the logarithms of the block sizes, and the largest transform of
// each size in planes 1 and 2. A list for each, as the standard has them.
#[derive(Clone, Copy)]
pub(crate) struct WordTables<'a> {
    levels: &'a [u8; 64],
    widths: [u8; 13],
    heights: [u8; 13],
    limits: [u8; 13],
    ghost tested: { found (bad_level levels.now) 64 ≡ false },
    ghost wide: { widths ≡ by_size mi_width_log2 },
    ghost high: { heights ≡ by_size mi_height_log2 },
}

impl<'a> WordTables<'a> {
    pub(crate) fn new_unchecked(levels: &'a [u8; 64], subx: bool, suby: bool) -> WordTables<'a>
        requires { found (bad_level levels.now) 64 ≡ false }
        ensures { (result.levels.now ≡ levels.now) × (result.limits ≡ by_size (uv_limit subx suby)) }
    {
        WordTables {
            levels,
            widths: mi_width_log2_table(),
            heights: mi_height_log2_table(),
            limits: uv_limit_table(subx, suby),
        }
    }

    // get_uv_tx_size( ), by the limits of the frame's subsampling.
    fn uv_tx(&self, size: BlockSize, tx_size: u8) -> u8
        ensures { result ≡ min tx_size (get_or self.now.limits size.number 0) }
    {
        tx_size.min(self.limits[usize::from(size.number)])
    }

    // What the pass reads of a cell. That its size was tested is a clause here and below: any size is lent, and all are tested before.
    #[tactic(auto, unfolding(crate::specs::Row::cell_from, blocks::specs::ModeInfo::sb_size), using(blocks::specs::BlockSizesLaws::by_size_lem))]
    fn cell_unchecked(&self, mi: CellMi) -> LfCell
        requires { mi.mi_size ≤ 12 }
        ensures { result ≡ cell_from self.now.levels.now mi.mi_size mi.tx_size (min mi.tx_size (get_or self.now.limits mi.mi_size 0)) mi.skip mi.ref_frame mi.y_mode mi.segment_id }
    {
        let size = usize::from(mi.mi_size);
        let raised = usize::from(sb_size(true, mi.mi_size));
        let mode_type = mode_to_mode_type(mi.y_mode);
        let lvl = find_level(
            self.levels,
            usize::from(mi.segment_id),
            mi.ref_frame,
            mode_type,
        );
        LfCell {
            width0: self.widths[size],
            width1: self.widths[raised],
            height0: self.heights[size],
            height1: self.heights[raised],
            tx: mi.tx_size,
            uvtx: self.uv_tx(BlockSize { number: mi.mi_size }, mi.tx_size),
            skipped: (mi.skip == 1) & !is_intra(mi.ref_frame),
            present: lvl.is_some(),
            level: lvl.unwrap_or(0),
        }
    }

    // The word of a cell whose size and transform were tested.
    #[tactic(auto, using(crate::specs::RowLaws::cell_fits))]
    pub(crate) fn word_unchecked(&self, mi: CellMi) -> u32
        requires { (mi.mi_size ≤ 12) × (mi.tx_size ≤ 3) }
        ensures { result ≡ packed (cell_from self.now.levels.now mi.mi_size mi.tx_size (min mi.tx_size (get_or self.now.limits mi.mi_size 0)) mi.skip mi.ref_frame mi.y_mode mi.segment_id) }
    {
        pack_unchecked(self.cell_unchecked(mi))
    }
}
