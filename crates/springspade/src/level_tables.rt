// The level table over lists, for C.
ghost use Rattle.base.specs.Outcome.{Answers};
ghost use Rattle.c_border.specs.Border.{numbers_of};
ghost use Rattle.c_levels.specs.LevelEntry.{level_entry};

use c_border::Refusal;

// Writes the frame's level table to the first 64 of levels, at segment * 8 + reference * 2 + mode type; the reference
// is 0 intra, 1 last, 2 golden, 3 altref. level: 0 to 63. The flags are those of the frame header. deltas: four by
// reference, then two by mode type. Where deltas_present has false the default holds: 1, 0, -1, -1, 0, 0.
// feature_enabled, feature_data: 32 each, at segment * 4 + feature.
// Refusals: 6 level above 63; 7 fewer than 6 deltas or deltas_present, 32 features or 64 levels.
#[unsafe(no_mangle)]
pub extern "C" fn springspade_level_table(
    level: u8,
    delta_enabled: bool,
    delta_update: bool,
    deltas: &[i8],
    deltas_present: &[bool],
    seg_enabled: bool,
    abs_or_delta_update: bool,
    feature_enabled: &[bool],
    feature_data: &[i16],
    levels: &mut [u8],
) -> Refusal
    ensures { Answers (level_entry level delta_enabled delta_update deltas.now deltas_present.now seg_enabled abs_or_delta_update feature_enabled.now feature_data.now levels.old) (numbers_of result) levels.old levels.new }
{
    c_levels::springspade_level_table(
        level,
        delta_enabled,
        delta_update,
        deltas,
        deltas_present,
        seg_enabled,
        abs_or_delta_update,
        feature_enabled,
        feature_data,
        levels,
    )
}
