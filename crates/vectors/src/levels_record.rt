// A record of a frame's level table, laid out as tests/differential/src/vectors.rs says.
ghost use Rattle.std.specs.Prelude.{◌<◌};

use crate::numbers::{i16_at, is_answer};
use frame_header::{LoopFilterParams, SegmentationParams};
use level_lookup::LvlLookup;
use levels::loop_filter::level_table;
use std::array;

// A number and no Option, as the file has it.
const NOT_COMPARED: u8 = 255;

// A byte that says whether a delta is there, and the delta.
fn delta_at(record: &[u8; 178], at: usize) -> Option<i8>
    requires { at < 177 }
{
    (record[at] != 0).then_some(record[at + 1].cast_signed())
}

fn loop_filter_params(record: &[u8; 178]) -> LoopFilterParams {
    LoopFilterParams {
        level: record[0],
        sharpness: 0,
        delta_enabled: record[1] != 0,
        delta_update: record[2] != 0,
        ref_deltas: array::from_fn(|k| delta_at(record, 5 + 2 * k)),
        mode_deltas: array::from_fn(|k| delta_at(record, 13 + 2 * k)),
    }
}

fn segmentation_params(record: &[u8; 178]) -> SegmentationParams {
    SegmentationParams {
        enabled: record[3] != 0,
        abs_or_delta_update: record[4] != 0,
        features: array::from_fn(|k| {
            (record[17 + k] != 0).then_some(i16_at(record, 49 + 2 * k))
        }),
    }
}

// A refused table is compared as zeros.
pub(crate) fn is_equal(record: &[u8; 178]) -> bool {
    let answer = level_table(loop_filter_params(record), segmentation_params(record));
    let found = answer.unwrap_or(LvlLookup::zeros());
    let are_levels = record[114..].iter().zip(&found.levels).all(|(level, found)| (*level
        == NOT_COMPARED)
        | (level == found));
    is_answer(answer.map(|_| ()), record[113], 0) & are_levels
}
