// The narrow filter (8.8.5.4), in the steps of the standard. It takes any samples: the one of lanes, which needs no sign, asks for
// 12 bits. Each step says how large its number is, since the next one adds to it: a type of each bound would be unpacked at each sum.
ghost use Rattle.std.specs.Prelude.{◌≡◌, cond, ◌<◌, pos, ◌+ℤ◌, ◌-ℤ◌, ◌*ℤ◌};
ghost use Rattle.std.specs.Int.Signed.{mag};
ghost use Rattle.base.specs.Notation.{asr_z, round2_z};
ghost use Rattle.line.specs.NarrowFilter.{c, offset, signed, sample, narrow_filter};

use base::depth::Depth;
use lane::taps::*;

// 0x80 << (depth - 8), half the range of a sample.
fn offset(depth: Depth) -> i32
    ensures { (result ≡ offset depth.bits) × (mag result < 2049) }
{
    i32::from(depth.scaled(128))
}

// c( v ).
#[tactic(auto, unfolding(crate::specs::NarrowFilter::c, base::specs::Notation::clip3), using(base::specs::Depth::depth_scaled))]
fn clip(v: i32, depth: Depth) -> i32
    ensures { (result ≡ c depth.bits v) × (mag result < 2048) }
{
    let half = offset(depth);
    v.clamp(-half, half - 1)
}

fn signed(x: u16, depth: Depth) -> i32
    ensures { (result ≡ signed depth.bits x) × (mag result < 131072) }
{
    i32::from(x) - offset(depth)
}

fn sample(v: i32, depth: Depth) -> u16
    ensures { result ≡ sample depth.bits v }
{
    (clip(v, depth) + offset(depth)) as u16
}

// Step 2: the outer taps count where the variance is high.
fn filter_base(ps1: i32, qs1: i32, hev: bool, depth: Depth) -> i32
    requires { (mag ps1 < 131072) × (mag qs1 < 131072) }
    ensures { (result ≡ cond hev (c depth.bits (ps1 -ℤ qs1)) (pos 0)) × (mag result < 2048) }
{
    if hev { clip(ps1 - qs1, depth) } else { 0 }
}

// Steps 2 and 3.
fn filter_value(ps1: i32, ps0: i32, qs0: i32, qs1: i32, hev: bool, depth: Depth) -> i32
    requires { (mag ps1 < 131072) × (mag ps0 < 131072) × (mag qs0 < 131072) × (mag qs1 < 131072) }
    ensures { (result ≡ c depth.bits (cond hev (c depth.bits (ps1 -ℤ qs1)) (pos 0) +ℤ pos 3 *ℤ (qs0 -ℤ ps0))) × (mag result < 2048) }
{
    let base = filter_base(ps1, qs1, hev, depth);
    clip(base + 3 * (qs0 - ps0), depth)
}

// c( v ) >> 3.
fn eighth(v: i32, depth: Depth) -> i32
    ensures { (result ≡ asr_z (c depth.bits v) 3) × (mag result < 2048) }
{
    clip(v, depth) >> 3
}

// Round2( v, 1 ).
fn rounded_half(v: i32) -> i32
    requires { mag v < 2048 }
    ensures { (result ≡ round2_z v 1) × (mag result < 2050) }
{
    (v + 1) >> 1
}

pub(crate) fn narrow_filter(t: &mut [u16; 16], hev: bool, depth: Depth)
    ensures { t.new ≡ narrow_filter depth.bits hev t.old }
{
    let ps1 = signed(t[P1], depth);
    let ps0 = signed(t[P0], depth);
    let qs0 = signed(t[Q0], depth);
    let qs1 = signed(t[Q1], depth);
    let filter = filter_value(ps1, ps0, qs0, qs1, hev, depth);
    let filter1 = eighth(filter + 4, depth);
    let filter2 = eighth(filter + 3, depth);
    t[Q0] = sample(qs0 - filter1, depth);
    t[P0] = sample(ps0 + filter2, depth);
    if hev {
        return;
    }
    let rounded = rounded_half(filter1);
    t[Q1] = sample(qs1 - rounded, depth);
    t[P1] = sample(ps1 + rounded, depth);
}
