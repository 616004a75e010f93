// The level table over lists.
// The crate springspade exports its functions to C, and says what their arguments are. C has no Option, so a list of flags
// stands beside each list of numbers that may be absent. Its refusals are made where they are found: a function that answers a Result for
// them would have all ten arguments again.
#![tactic(auto)]

ghost use Rattle.std.specs.Prelude.{◌≡◌, ◌≤◌, ◌<◌, length};
ghost use Rattle.base.specs.Copied.{copied};
ghost use Rattle.base.specs.Outcome.{Answers};
ghost use Rattle.c_border.specs.Border.{numbers_of};
ghost use Rattle.c_levels.specs.LevelEntry.{delta_at, params_of, segments_of, level_entry};

use base::fault::Fault;
use c_border::{Refusal, refusal_of};
use frame_header::{LoopFilterParams, SegmentationParams};
use levels::loop_filter::level_table;
use std::array;

fn delta_at(deltas: &[i8], present: &[bool], k: usize) -> Option<i8>
    requires { (k < length deltas.now) × (k < length present.now) }
    ensures { result ≡ delta_at deltas.now present.now k }
{
    if present[k] { Some(deltas[k]) } else { None }
}

fn store_levels(table: &[u8; 64], levels: &mut [u8])
    requires { 64 ≤ length levels.old }
    ensures { levels.new ≡ copied table.now 64 levels.old }
{
    levels[..64].copy_from_slice(table);
}

fn loop_filter_params(
    level: u8,
    delta_enabled: bool,
    delta_update: bool,
    deltas: &[i8],
    present: &[bool],
) -> LoopFilterParams
    requires { (6 ≤ length deltas.now) × (6 ≤ length present.now) }
    ensures { result ≡ params_of level delta_enabled delta_update deltas.now present.now }
{
    let delta = |k| delta_at(deltas, present, k);
    LoopFilterParams {
        level,
        sharpness: 0,
        delta_enabled,
        delta_update,
        ref_deltas: [delta(0), delta(1), delta(2), delta(3)],
        mode_deltas: [delta(4), delta(5)],
    }
}

fn segmentation_params(
    enabled: bool,
    abs_or_delta_update: bool,
    flags: &[bool],
    numbers: &[i16],
) -> SegmentationParams
    requires { (32 ≤ length flags.now) × (32 ≤ length numbers.now) }
    ensures { result ≡ segments_of enabled abs_or_delta_update flags.now numbers.now }
{
    SegmentationParams {
        enabled,
        abs_or_delta_update,
        features: array::from_fn(|k| flags[k].then_some(numbers[k])),
    }
}

// Writes the frame's level table to the first 64 of levels, where it accepts its arguments.
#[tactic(auto, unfolding(crate::specs::LevelEntry::level_entry, levels::specs::Levels::level_table, levels::specs::Levels::frame_init))]
pub fn springspade_level_table(
    level: u8,
    delta_enabled: bool,
    delta_update: bool,
    deltas: &[i8],
    deltas_present: &[bool],
    seg_enabled: bool,
    abs_or_delta_update: bool,
    feature_enabled: &[bool],
    feature_data: &[i16],
    levels: &mut [u8],
) -> Refusal
    ensures { Answers (level_entry level delta_enabled delta_update deltas.now deltas_present.now seg_enabled abs_or_delta_update feature_enabled.now feature_data.now levels.old) (numbers_of result) levels.old levels.new }
{
    if 63 < level {
        return Refusal::from(Fault::Level(0));
    }
    if (deltas.len() < 6)
        | (deltas_present.len() < 6)
        | (feature_enabled.len() < 32)
        | (feature_data.len() < 32)
        | (levels.len() < 64)
    {
        return Refusal::from(Fault::Short);
    }
    let lf = loop_filter_params(level, delta_enabled, delta_update, deltas, deltas_present);
    let seg = segmentation_params(
        seg_enabled,
        abs_or_delta_update,
        feature_enabled,
        feature_data,
    );
    match level_table(lf, seg) {
        Ok(table) => {
            store_levels(&table.levels, levels);
            refusal_of(Ok(()))
        }
        Err(fault) => Refusal::from(fault),
    }
}
