// The narrow filter (8.8.5.4) on bytes: each value is raised by half its range, and sums and differences stop at the ends of a byte.
ghost use Rattle.std.specs.Prelude.{◌≡◌, ◌<◌};
ghost use Rattle.line.specs.NarrowFilter.{narrow_filter};
ghost use Rattle.lane.specs.LaneSamples.{samples_of, four_of, put_taps};
ghost use Rattle.lane_filters.specs.RaisedFilter.{raised_base, raised_filter, raised_eighth, raised_half, increased, decreased};

use lane::{Four, Lane};

// Step 2, raised by 128: the outer taps count where the variance is high.
#[tactic(auto, unfolding(lane_filters::specs::RaisedFilter::raised_base))]
fn filter_base(p1: u8, q1: u8, hev: bool) -> u8
    ensures { result ≡ raised_base 1 hev p1 q1 }
{
    let base = 128u8
        .saturating_add(p1.saturating_sub(q1))
        .saturating_sub(q1.saturating_sub(p1));
    if hev { base } else { 128 }
}

// Step 3, raised by 128.
#[tactic(auto, unfolding(lane_filters::specs::RaisedFilter::raised_filter))]
fn filter_value(base: u8, p0: u8, q0: u8) -> u8
    ensures { result ≡ raised_filter 1 base p0 q0 }
{
    let up = q0.saturating_sub(p0);
    let down = p0.saturating_sub(q0);
    let raised = base
        .saturating_add(up)
        .saturating_add(up)
        .saturating_add(up);
    raised
        .saturating_sub(down)
        .saturating_sub(down)
        .saturating_sub(down)
}

// c( filter + n ) >> 3, raised by 16.
#[tactic(auto, unfolding(lane_filters::specs::RaisedFilter::raised_eighth))]
fn eighth(filter: u8, n: u8) -> u8
    ensures { (result ≡ raised_eighth 1 filter n) × (result < 32) }
{
    filter.saturating_add(n) / 8
}

// Round2( filter, 1 ), raised by 8.
fn rounded_half(filter: u8) -> u8
    requires { filter < 32 }
    ensures { result ≡ raised_half filter }
{
    (filter + 1) / 2
}

// A sample with a value that is raised by k added, or taken away.

#[tactic(auto, unfolding(lane_filters::specs::RaisedFilter::increased))]
fn increased(x: u8, value: u8, k: u8) -> u8
    ensures { result ≡ increased 1 x value k }
{
    x.saturating_add(value.saturating_sub(k))
        .saturating_sub(k.saturating_sub(value))
}

#[tactic(auto, unfolding(lane_filters::specs::RaisedFilter::decreased))]
fn decreased(x: u8, value: u8, k: u8) -> u8
    ensures { result ≡ decreased 1 x value k }
{
    x.saturating_add(k.saturating_sub(value))
        .saturating_sub(value.saturating_sub(k))
}

#[tactic(auto, using(lane_filters::specs::RaisedFilterLaws::narrow_bytes))]
pub(crate) fn narrow_filter(a: Lane<u8>, hev: bool) -> Four<u8>
    ensures { put_taps (samples_of a) 6 (four_of result) ≡ narrow_filter 8 hev (samples_of a) }
{
    let base = filter_base(a.p1, a.q1, hev);
    let filter = filter_value(base, a.p0, a.q0);
    let filter1 = eighth(filter, 4);
    let filter2 = eighth(filter, 3);
    let p0 = increased(a.p0, filter2, 16);
    let q0 = decreased(a.q0, filter1, 16);
    if hev {
        return Four {
            p1: a.p1,
            p0,
            q0,
            q1: a.q1,
        };
    }
    let rounded = rounded_half(filter1);
    let p1 = increased(a.p1, rounded, 8);
    let q1 = decreased(a.q1, rounded, 8);
    Four { p1, p0, q0, q1 }
}
