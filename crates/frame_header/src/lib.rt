// What the frame header says of the loop filter: its parameter records, which segmentation features are active, and which deltas hold.
#![tactic(auto)]

ghost use Rattle.std.specs.Prelude.{◌≡◌};
ghost use Rattle.frame_header.specs.Params.{active_feature, seg_feature_active, resolved_from, default_deltas};

// loop_filter_params( ) of 6.2.8. A delta whose update bit was not set is None.
#[derive(Clone, Copy, Debug, PartialEq, Eq)]
pub struct LoopFilterParams {
    pub level: u8,
    pub sharpness: u8,
    pub delta_enabled: bool,
    pub delta_update: bool,
    pub ref_deltas: [Option<i8>; 4],
    pub mode_deltas: [Option<i8>; 2],
}

// segmentation_params( ) of 6.2.11. The features are flat, since C lends them so, at segment times 4 plus feature: FeatureData, or None
// where FeatureEnabled is 0. Whether they are enabled stands beside them, as the header codes it.
#[derive(Clone, Copy, Debug, PartialEq, Eq)]
pub struct SegmentationParams {
    pub enabled: bool,
    pub abs_or_delta_update: bool,
    pub features: [Option<i16>; 32],
}

// The data of a segmentation feature, if it is active (6.4.9). A segment above 7 or a feature above 3 is never active: both are
// numbers and no enum, as C and the standard's loops count them, and any is taken.
#[tactic(auto, unfolding(crate::specs::Params::active_feature))]
pub fn active_feature(seg: SegmentationParams, segment_id: usize, feature: usize) -> Option<i16>
    ensures { result ≡ active_feature seg segment_id feature }
{
    if !seg.enabled || 8 <= segment_id || 4 <= feature {
        return None;
    }
    let at = segment_id * 4 + feature;
    seg.features[at]
}

// Which segmentation features are active: the standard's function, for a caller.
#[tactic(auto, unfolding(crate::specs::Params::seg_feature_active))]
pub fn seg_feature_active(seg: SegmentationParams, segment_id: usize, feature: usize) -> bool
    ensures { result ≡ seg_feature_active seg segment_id feature }
{
    active_feature(seg, segment_id, feature).is_some()
}

// The deltas that hold in a frame.
#[derive(Clone, Copy, Debug, PartialEq, Eq)]
pub struct Deltas {
    pub refs: [i8; 4],
    pub modes: [i8; 2],
}

// The header's deltas, with the defaults of setup_past_independence( ) for those that are absent.
#[tactic(auto, unfolding(crate::specs::Params::resolved_from))]
pub fn resolve_lf_deltas(lf: LoopFilterParams) -> Deltas
    ensures { result ≡ resolved_from default_deltas lf }
{
    let [intra, last, golden, altref] = lf.ref_deltas;
    let [zero_mv, other_mv] = lf.mode_deltas;
    Deltas {
        refs: [
            intra.unwrap_or(1),
            last.unwrap_or(0),
            golden.unwrap_or(-1),
            altref.unwrap_or(-1),
        ],
        modes: [zero_mv.unwrap_or(0), other_mv.unwrap_or(0)],
    }
}
