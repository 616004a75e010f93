// The line filter (8.8.5) on one lane of bytes, at depth 8.
#![tactic(auto)]

ghost use Rattle.std.specs.Prelude.{◌≡◌, cond, ◌%◌, ◌/◌, eqb};
ghost use Rattle.lane.specs.LaneSamples.{samples_of, four_of, six_of, fourteen_of, put_taps};
ghost use Rattle.line.specs.Masks.{hev_mask};
ghost use Rattle.line.specs.NarrowFilter.{narrow_filter};
ghost use Rattle.wide_filter.specs.WideFilter.{wide_filter};
ghost use Rattle.byte_filters.specs.ByteArm.{arm_of, number_of};

mod limits;
mod narrow;
mod wide;

use base::key::Key;
use base::sharpness::Sharpness;
use lane::{Four, Lane, Six};
use limits::{blimit_of, limit_of};
use line::masks::{filter_mask_unchecked, flat_mask, flat_mask2, hev_mask};
use narrow::narrow_filter;
use wide::{wide_fourteen, wide_six};

// The filter that a lane gets: none, the narrow one, the wide one of six samples, or that of fourteen.
#[derive(Clone, Copy, Debug, PartialEq, Eq)]
pub enum Arm {
    None,
    Narrow,
    Six,
    Fourteen,
}

// The arm of a lane by its key, which is 64 times the filter size and the level: 8.8.3 computes the size as a number.
#[tactic(auto, unfolding(crate::specs::ByteArm::arm_of, strength::specs::Strength::strength_of))]
pub fn lane_arm(a: Lane<u8>, key: Key, sharpness: Sharpness) -> Arm
    ensures { number_of result ≡ arm_of sharpness.level key.number (samples_of a) }
{
    let level = key.level();
    let limit = limit_of(level, sharpness);
    let on = (0 < level.number) & filter_mask_unchecked(a, limit, blimit_of(level, limit));
    let flat = (64 <= key.number) & flat_mask(a, 1);
    let flat2 = (128 <= key.number) & flat_mask2(a, 1);
    let wide = if flat2 { Arm::Fourteen } else { Arm::Six };
    let some = if flat { wide } else { Arm::Narrow };
    if on { some } else { Arm::None }
}

// The filter of each arm: a lane of another arm stays as it is. One function for each arm, since each answers the part of the lane that
// its filter can change.

// Any byte will do as the key, since its level alone is read.
pub fn byte_four(a: Lane<u8>, key: u8, arm: Arm) -> Four<u8>
    ensures { put_taps (samples_of a) 6 (four_of result) ≡ cond (eqb (number_of arm) 1) (narrow_filter 8 (hev_mask (key % 64 / 16) (samples_of a)) (samples_of a)) (samples_of a) }
{
    let r = narrow_filter(a, hev_mask(a, key % 64 / 16));
    let on = arm == Arm::Narrow;
    if on { r } else { a.four() }
}

pub fn byte_six(a: Lane<u8>, arm: Arm) -> Six<u8>
    ensures { put_taps (samples_of a) 5 (six_of result) ≡ cond (eqb (number_of arm) 2) (wide_filter 3 (samples_of a)) (samples_of a) }
{
    let r = wide_six(a);
    let on = arm == Arm::Six;
    if on { r } else { a.six() }
}

pub fn byte_fourteen(a: Lane<u8>, arm: Arm) -> Lane<u8>
    ensures { put_taps (samples_of a) 1 (fourteen_of result) ≡ cond (eqb (number_of arm) 3) (wide_filter 4 (samples_of a)) (samples_of a) }
{
    let r = wide_fourteen(a);
    let on = arm == Arm::Fourteen;
    if on { r } else { a }
}
