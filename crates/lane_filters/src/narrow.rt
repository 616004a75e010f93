// The narrow filter (8.8.5.4) on numbers without a sign: each value is raised by half its range, so that 16 bits are enough
// and a subtraction that stops at 0 clips from below. Bytes have a narrow filter of their own: a byte ends where their range
// does, so that they need no cap and stay in 8 bits. Each step says how large its number is, since the next one adds to it: a type of
// each bound would be unpacked at each sum.
ghost use Rattle.std.specs.Prelude.{◌≡◌, ◌-◌, ◌*◌, ◌≤◌, ◌<◌, min};
ghost use Rattle.line.specs.NarrowFilter.{narrow_filter};
ghost use Rattle.lane.specs.LaneSamples.{samples_of, four_of, put_taps};
ghost use Rattle.lane_filters.specs.Small.{Small};
ghost use Rattle.lane_filters.specs.RaisedFilter.{raised_base, raised_filter, raised_eighth, raised_half, increased, decreased};

use base::depth::Depth;
use lane::{Four, Lane};

// The scale of the depth.
#[derive(Clone, Copy)]
struct Scale {
    one: u16,
    ghost some: { 0 < one },
    ghost few: { one ≤ 16 },
}

// x less y, at least 0 and at most top. Its own function, since it joins a difference that stops at 0 with a bound.
fn capped(x: u16, y: u16, top: u16) -> u16
    ensures { result ≡ min (x - y) top }
{
    x.saturating_sub(y).min(top)
}

// Step 2: the outer taps count where the variance is high.
#[tactic(auto, unfolding(crate::specs::RaisedFilter::raised_base))]
fn filter_base(p1: u16, q1: u16, hev: bool, s: Scale) -> u16
    requires { p1 < 4096 }
    ensures { (result ≡ raised_base s.one hev p1 q1) × (result < 256 * s.one) }
{
    if hev {
        capped(p1 + 128 * s.one, q1, 256 * s.one - 1)
    } else {
        128 * s.one
    }
}

// Step 3.
#[tactic(auto, unfolding(crate::specs::RaisedFilter::raised_filter))]
fn filter_value(base: u16, p0: u16, q0: u16, s: Scale) -> u16
    requires { (base < 256 * s.one) × (p0 < 4096) × (q0 < 4096) }
    ensures { (result ≡ raised_filter s.one base p0 q0) × (result < 256 * s.one) }
{
    capped(base + 3 * q0, 3 * p0, 256 * s.one - 1)
}

// c( filter + n ) >> 3.
#[tactic(auto, unfolding(crate::specs::RaisedFilter::raised_eighth))]
fn eighth(filter: u16, n: u16, s: Scale) -> u16
    requires { (filter < 256 * s.one) × (n ≤ 4) }
    ensures { (result ≡ raised_eighth s.one filter n) × (result < 32 * s.one) }
{
    (filter + n).min(256 * s.one - 1) / 8
}

// Round2( filter, 1 ).
fn rounded_half(filter: u16) -> u16
    requires { filter < 512 }
    ensures { (result ≡ raised_half filter) × (result < 512) }
{
    (filter + 1) / 2
}

// A sample with a value that is raised by k added, or taken away.

#[tactic(auto, unfolding(crate::specs::RaisedFilter::increased))]
fn increased(x: u16, value: u16, k: u16, s: Scale) -> u16
    requires { (value < 512) × (x < 4096) }
    ensures { result ≡ increased s.one x value k }
{
    capped(x + value, k, 256 * s.one - 1)
}

#[tactic(auto, unfolding(crate::specs::RaisedFilter::decreased))]
fn decreased(x: u16, value: u16, k: u16, s: Scale) -> u16
    requires { (k < 512) × (x < 4096) }
    ensures { result ≡ decreased s.one x value k }
{
    capped(x + k, value, 256 * s.one - 1)
}

#[tactic(auto, using(base::specs::Depth::depth_scaled, crate::specs::RaisedFilterLaws::narrow_raised))]
pub(crate) fn narrow_filter(a: Lane<u16>, hev: bool, depth: Depth) -> Four<u16>
    requires { Small a }
    ensures { put_taps (samples_of a) 6 (four_of result) ≡ narrow_filter depth.bits hev (samples_of a) }
{
    let one = depth.scaled(1);
    let s = Scale { one };
    let base = filter_base(a.p1, a.q1, hev, s);
    let filter = filter_value(base, a.p0, a.q0, s);
    let filter1 = eighth(filter, 4, s);
    let filter2 = eighth(filter, 3, s);
    let p0 = increased(a.p0, filter2, 16 * one, s);
    let q0 = decreased(a.q0, filter1, 16 * one, s);
    if hev {
        return Four {
            p1: a.p1,
            p0,
            q0,
            q1: a.q1,
        };
    }
    let rounded = rounded_half(filter1);
    let p1 = increased(a.p1, rounded, 8 * one, s);
    let q1 = decreased(a.q1, rounded, 8 * one, s);
    Four { p1, p0, q0, q1 }
}
