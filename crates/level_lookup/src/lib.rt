// The level table as the filter reads it: LvlLookup of the Rust's loop_filter.rs, and the entry of any segment, reference and mode type.
#![tactic(auto)]

ghost use Rattle.std.specs.Prelude.{◌≡◌};
ghost use Rattle.level_lookup.specs.LevelLookup.{zero_levels, lookup_of};

// LvlLookup[ segment ][ ref ][ mode ], flat, since C lends it so: at segment times 8 plus reference times 2 plus mode type.
#[derive(Clone, Copy, Debug, PartialEq, Eq)]
pub struct LvlLookup {
    pub levels: [u8; 64],
}

impl LvlLookup {
    pub const MAX_SEGMENTS: usize = 8;

    pub const MAX_REF_FRAMES: usize = 4;

    pub const MAX_MODE_LF_DELTAS: usize = 2;

    pub const MAX_LOOP_FILTER: u8 = 63;

    pub fn zeros() -> Self
        ensures { result.levels ≡ zero_levels }
    {
        LvlLookup { levels: [0; 64] }
    }

    // As the Rust has it: the row's cells call find_level.
    pub fn get(self, segment_id: usize, ref_frame: i32, mode: usize) -> Option<u8>
        ensures { result ≡ lookup_of self.levels segment_id ref_frame mode }
    {
        find_level(&self.levels, segment_id, ref_frame, mode)
    }
}

// The entry of any segment, reference and mode type, of a table that is lent. They are numbers and no enum, as the lists of mode info
// and C have them, and any is taken.
#[tactic(auto, unfolding(crate::specs::LevelLookup::lookup_of))]
pub fn find_level(levels: &[u8; 64], segment_id: usize, ref_frame: i32, mode: usize) -> Option<u8>
    ensures { result ≡ lookup_of levels.now segment_id ref_frame mode }
{
    // Not usize::try_from, which made the loop over a row's cells slower.
    if LvlLookup::MAX_SEGMENTS <= segment_id {
        return None;
    }
    if LvlLookup::MAX_MODE_LF_DELTAS <= mode {
        return None;
    }
    if ref_frame < 0 {
        return None;
    }
    let r = ref_frame as usize;
    if LvlLookup::MAX_REF_FRAMES <= r {
        return None;
    }
    let at = segment_id * 8 + r * 2 + mode;
    Some(levels[at])
}
