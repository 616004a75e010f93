// The level table of a frame (8.8.1), in the order of the Rust's loop_filter.rs.
ghost use Rattle.std.specs.Prelude.{◌≡◌, ◌*◌, ◌/◌, ◌≤◌, ◌<◌, pos, ◌+ℤ◌, ℕ, get_or, replicate};
ghost use Rattle.std.specs.Int.Signed.{mag};
ghost use Rattle.base.specs.Filled.{filled};
ghost use Rattle.base.specs.Notation.{shl_z};
ghost use Rattle.level_lookup.specs.LevelLookup.{zero_levels};
ghost use Rattle.levels.specs.Levels.{clipped_level, n_shift, lvl_seg, delta_lvl, segment_lvl, place_lvl, frame_init, level_table, table_outcome};

use base::fault::Fault;
use frame_header::{
    Deltas, LoopFilterParams, SegmentationParams, active_feature, resolve_lf_deltas,
};
use level_lookup::LvlLookup;

// The segmentation feature that carries a level.
pub const SEG_LVL_ALT_L: usize = 1;

// Clip3( 0, MAX_LOOP_FILTER, v ): a step of the standard, as the number of a level.
#[tactic(auto, unfolding(crate::specs::Levels::clipped_level, base::specs::Notation::clip3))]
fn clip_level(v: i32) -> u8
    ensures { (result ≡ clipped_level v) × (result ≤ 63) }
{
    v.clamp(0, 63) as u8
}

fn clipped_sum(lvl: u8, x: i32) -> u8
    requires { mag x < 65536 }
    ensures { (result ≡ clipped_level (pos lvl +ℤ x)) × (result ≤ 63) }
{
    clip_level(i32::from(lvl) + x)
}

// A frame whose level was tested, with the deltas that hold in it.
#[derive(Clone, Copy)]
struct TestedFrame {
    lf: LoopFilterParams,
    deltas: Deltas,
    ghost small: { lf.level ≤ 63 },
}

impl TestedFrame {
    // delta << nShift, where nShift is 0 or 1.
    fn scaled(self, delta: i8) -> i32
        ensures { (result ≡ shl_z delta (n_shift self.lf)) × (mag result < 256) }
    {
        let d = i32::from(delta);
        if self.lf.level < 32 { d } else { d * 2 }
    }

    // Steps 1 and 2.
    #[tactic(auto, unfolding(crate::specs::Levels::lvl_seg, frame_header::specs::Params::seg_feature_active, frame_header::specs::Params::active_feature))]
    fn segment_level(self, seg: SegmentationParams, segment: usize) -> u8
        ensures { (result ≡ lvl_seg self.lf seg segment) × (result ≤ 63) }
    {
        match active_feature(seg, segment, SEG_LVL_ALT_L) {
            None => self.lf.level,
            Some(datum) if seg.abs_or_delta_update => clip_level(i32::from(datum)),
            Some(datum) => clipped_sum(self.lf.level, i32::from(datum)),
        }
    }

    // Step 4 for one entry of a segment whose level is lvl. Reference and mode are the table's places, and no enum.
    #[tactic(auto, unfolding(crate::specs::Levels::intra_lvl, crate::specs::Levels::inter_lvl))]
    fn delta_level(self, lvl: u8, reference: usize, mode: usize) -> u8
        requires { (reference < 4) × (mode < 2) }
        ensures { result ≡ delta_lvl self.lf self.deltas lvl reference mode }
    {
        let of_reference = self.scaled(self.deltas.refs[reference]);
        if reference == 0 {
            return clipped_sum(lvl, of_reference);
        }
        let of_mode = self.scaled(self.deltas.modes[mode]);
        clipped_sum(lvl, of_reference + of_mode)
    }

    // Steps 3 and 4 for the entry at a place of the table. Step 4 leaves the entry of intra and mode type 1 as step 3 set it.
    #[tactic(auto, unfolding(crate::specs::Levels::entry_lvl, crate::specs::Levels::segment_lvl))]
    fn entry_level(self, lvl: u8, at: usize) -> u8
        ensures { result ≡ segment_lvl self.lf self.deltas lvl at }
    {
        let reference = at % 8 / 2;
        let mode = at % 2;
        if self.lf.delta_enabled & !((reference == 0) & (mode != 0)) {
            return self.delta_level(lvl, reference, mode);
        }
        if self.lf.delta_update { 0 } else { lvl }
    }

    // The eight entries of a segment whose level is lvl. By a loop for each segment: made at once by array::from_fn, the table took
    // twice as long.
    #[tactic(auto, using(base::specs::Filled::filled_none, base::specs::Filled::filled_more))]
    fn store_segment(self, levels: &mut [u8; 64], lvl: u8, segment: usize)
        requires { segment < 8 }
        ensures { levels.new ≡ filled (segment_lvl self.lf self.deltas lvl) (segment * 8) 8 levels.old }
    {
        for k in 0..8 {
            let at = segment * 8 + k;
            levels[at] = self.entry_level(lvl, at);
        }
    }

    // The levels of the eight segments, over their numbers, which no list holds. By a loop of its own, which is unrolled: in the
    // table's loop the header was copied for each segment.
    #[tactic(auto, using(base::specs::Filled::filled_none, base::specs::Filled::filled_more))]
    fn segment_levels(self, seg: SegmentationParams) -> [u8; 8]
        ensures { result ≡ filled (lvl_seg self.lf seg) 0 8 (replicate 8 0) }
    {
        let mut levels = [0; 8];
        for segment in 0..8 {
            levels[segment] = self.segment_level(seg, segment);
        }
        levels
    }

    // What the entries are made from: the levels of the segments, or 0 where deltas are off and updated, since step 3 then leaves 0
    // whatever they are.
    #[tactic(auto, using(crate::proofs::LevelLaws::of_segments, crate::proofs::LevelLaws::none_counts))]
    fn counted_levels(self, seg: SegmentationParams) -> [u8; 8]
        ensures { (segment k : ℕ) → segment < 8 → segment_lvl self.lf self.deltas (get_or result segment 0) k ≡ segment_lvl self.lf self.deltas (lvl_seg self.lf seg segment) k }
    {
        if !self.lf.delta_enabled & self.lf.delta_update {
            return [0; 8];
        }
        self.segment_levels(seg)
    }

    // The table.
    #[tactic(auto, using(base::specs::Filled::filled_none))]
    fn levels(self, seg: SegmentationParams) -> [u8; 64]
        ensures { result ≡ filled (place_lvl self.lf seg self.deltas) 0 64 zero_levels }
    {
        let segments = self.counted_levels(seg);
        let mut levels = [0; 64];
        // Over the numbers of the segments, by which the entries stand too.
        for segment in 0..8 {
            self.store_segment(&mut levels, segments[segment], segment);
        }
        levels
    }
}

// The level table for deltas that are resolved. A frame level above 63 is refused.
// By a test and no Level: the header's record goes on as it is, with its level in it.
#[tactic(auto, unfolding(crate::specs::Levels::frame_init))]
pub fn loop_filter_frame_init(
    lf: LoopFilterParams,
    seg: SegmentationParams,
    deltas: Deltas,
) -> Result<LvlLookup, Fault>
    ensures { table_outcome result ≡ frame_init lf seg deltas }
{
    if LvlLookup::MAX_LOOP_FILTER < lf.level {
        return Err(Fault::Level(0));
    }
    let levels = TestedFrame { lf, deltas }.levels(seg);
    Ok(LvlLookup { levels })
}

// The level table of a frame: the header's deltas are resolved first.
#[tactic(auto, unfolding(crate::specs::Levels::level_table))]
pub fn level_table(lf: LoopFilterParams, seg: SegmentationParams) -> Result<LvlLookup, Fault>
    ensures { table_outcome result ≡ level_table lf seg }
{
    loop_filter_frame_init(lf, seg, resolve_lf_deltas(lf))
}
