// The line filter on 16 lanes of bytes at once, each with a key of its own. Loops have no branch, so that they vectorise.
#![tactic(auto)]

ghost use Rattle.std.specs.List.{fold};
ghost use Rattle.std.specs.Prelude.{◌≡◌, ◌<◌, ◌||◌, false, eqb, get_or, map};
ghost use Rattle.byte_filters.specs.ByteArm.{number_of, arm_of};
ghost use Rattle.lanes.specs.Lanes.{lane_of};
ghost use Rattle.byte_lanes.specs.ByteLanes.{ArmsTo, Filtered};

pub mod lane_keys;

use base::key::Key;
use base::sharpness::Sharpness;
use byte_filters::{Arm, byte_four, byte_fourteen, byte_six, lane_arm};
use lane::Lane;
use lane_keys::LaneKeys;
use lanes::table::{each_lane_unchecked, lane_at_unchecked};
use std::array;

// What filtering changed: nothing, taps p3 to q3 alone, or others too.
#[derive(Clone, Copy, PartialEq, Eq)]
pub enum Changed {
    Nothing,
    Inner,
    Outer,
}

// The filter of a lane by its key.
fn arm_at(t: &[u8; 256], keys: &LaneKeys, sharpness: Sharpness, l: usize) -> Arm
    requires { l < 16 }
    ensures { number_of result ≡ arm_of sharpness.level (get_or keys.now.of l 0) (lane_of t.now l) }
{
    lane_arm(
        lane_at_unchecked(t, l),
        Key { number: keys.of[l] },
        sharpness,
    )
}

fn lane_arms(t: &[u8; 256], keys: &LaneKeys, sharpness: Sharpness) -> [Arm; 16]
    ensures { ArmsTo 16 sharpness.level keys.now.of t.now (map number_of result) }
{
    array::from_fn(move |l| arm_at(t, keys, sharpness, l))
}

// Whether a lane gets the filter arm. All are looked at, since a loop that could end early, as `any` is, would not vectorise.
#[tactic(auto, using(byte_filters::specs::ByteArmLaws::same_arm))]
fn any_arm(arms: &[Arm; 16], arm: Arm) -> bool
    ensures { result ≡ fold (λ on a. on || eqb (number_of a) (number_of arm)) false arms.now }
{
    arms.iter().fold(false, |on, a| on | (*a == arm))
}

// Filters each lane by its key. A loop that would change no lane is left out.
pub fn filter_byte_lanes(t: &mut [u8; 256], keys: &LaneKeys, sharpness: Sharpness) -> Changed
    ensures { Filtered sharpness.level keys.now.of t.old t.new result }
{
    let arms = lane_arms(t, keys, sharpness);
    let four = any_arm(&arms, Arm::Narrow);
    let six = any_arm(&arms, Arm::Six);
    let outer = any_arm(&arms, Arm::Fourteen);
    if four {
        each_lane_unchecked(t, 16, |a: Lane<u8>, l: usize| {
            byte_four(a, keys.of[l], arms[l])
        });
    }
    if six {
        each_lane_unchecked(t, 16, |a: Lane<u8>, l: usize| byte_six(a, arms[l]));
    }
    if outer {
        each_lane_unchecked(t, 16, |a: Lane<u8>, l: usize| byte_fourteen(a, arms[l]));
        return Changed::Outer;
    }
    if four | six {
        Changed::Inner
    } else {
        Changed::Nothing
    }
}
