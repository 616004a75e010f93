// The line filter (8.8.5) on one lane: 16 samples of at most 12 bits, so that all of it is done in 16 bits.
#![tactic(auto)]

ghost use Rattle.std.specs.Prelude.{◌≡◌};
ghost use Rattle.base.specs.Depth.{scaled};
ghost use Rattle.line.specs.Masks.{filter_mask};
ghost use Rattle.line.specs.SampleFiltering.{sample_filtering};
ghost use Rattle.lane.specs.LaneSamples.{samples_of, four_of, six_of, fourteen_of, put_taps};
ghost use Rattle.lane_filters.specs.Small.{Small};

mod narrow;

use lane::{Four, Lane, Six};
use line::line_strength::LineStrength;
use line::masks::{filter_mask_unchecked, flat_mask, flat_mask2, hev_mask};
use narrow::narrow_filter;
use wide_filter::{wide_fourteen_unchecked, wide_six_unchecked};

// What a larger size can change, where a smaller one's filter did the work: the taps beside are the lane's own. Two functions, since
// each takes and answers another type.

fn with_four(a: Lane<u16>, r: Four<u16>) -> Six<u16>
    ensures { put_taps (samples_of a) 5 (six_of result) ≡ put_taps (samples_of a) 6 (four_of r) }
{
    Six {
        p2: a.p2,
        p1: r.p1,
        p0: r.p0,
        q0: r.q0,
        q1: r.q1,
        q2: a.q2,
    }
}

fn with_six(a: Lane<u16>, r: Six<u16>) -> Lane<u16>
    ensures { put_taps (samples_of a) 1 (fourteen_of result) ≡ put_taps (samples_of a) 5 (six_of r) }
{
    Lane {
        p7: a.p7,
        p6: a.p6,
        p5: a.p5,
        p4: a.p4,
        p3: a.p3,
        p2: r.p2,
        p1: r.p1,
        p0: r.p0,
        q0: r.q0,
        q1: r.q1,
        q2: r.q2,
        q3: a.q3,
        q4: a.q4,
        q5: a.q5,
        q6: a.q6,
        q7: a.q7,
    }
}

// Whether a filter is on at all.
pub fn lane_mask(a: Lane<u16>, f: LineStrength) -> bool
    ensures { result ≡ filter_mask (scaled f.depth.bits f.limit) (scaled f.depth.bits f.blimit) (samples_of a) }
{
    filter_mask_unchecked(a, f.depth.scaled(f.limit), f.depth.scaled(f.blimit))
}

// A lane at size 0, 1 and 2: one function for each, since each answers the part of the lane that it can change. Lanes of bytes have
// keys of their own, so that they are told apart by their filter first; these share one. That a lane is small is a clause of each and
// no type, since lanes come out of a table of any samples.

#[tactic(auto, unfolding(line::specs::SampleFiltering::sample_filtering))]
pub fn lane_four_unchecked(a: Lane<u16>, f: LineStrength) -> Four<u16>
    requires { Small a }
    ensures { put_taps (samples_of a) 6 (four_of result) ≡ sample_filtering f.depth.bits 0 f.limit f.blimit f.thresh (samples_of a) }
{
    if !lane_mask(a, f) {
        return a.four();
    }
    let hev = hev_mask(a, f.depth.scaled(f.thresh));
    narrow_filter(a, hev, f.depth)
}

#[tactic(auto, unfolding(line::specs::SampleFiltering::sample_filtering))]
pub fn lane_six_unchecked(a: Lane<u16>, f: LineStrength) -> Six<u16>
    requires { Small a }
    ensures { put_taps (samples_of a) 5 (six_of result) ≡ sample_filtering f.depth.bits 1 f.limit f.blimit f.thresh (samples_of a) }
{
    if !lane_mask(a, f) {
        return a.six();
    }
    if !flat_mask(a, f.depth.scaled(1)) {
        let hev = hev_mask(a, f.depth.scaled(f.thresh));
        return with_four(a, narrow_filter(a, hev, f.depth));
    }
    wide_six_unchecked::<u16>(a)
}

#[tactic(auto, unfolding(line::specs::SampleFiltering::sample_filtering))]
pub fn lane_fourteen_unchecked(a: Lane<u16>, f: LineStrength) -> Lane<u16>
    requires { Small a }
    ensures { put_taps (samples_of a) 1 (fourteen_of result) ≡ sample_filtering f.depth.bits 2 f.limit f.blimit f.thresh (samples_of a) }
{
    if !lane_mask(a, f) {
        return a;
    }
    if !flat_mask(a, f.depth.scaled(1)) {
        let hev = hev_mask(a, f.depth.scaled(f.thresh));
        return with_six(a, with_four(a, narrow_filter(a, hev, f.depth)));
    }
    if !flat_mask2(a, f.depth.scaled(1)) {
        return with_six(a, wide_six_unchecked::<u16>(a));
    }
    wide_fourteen_unchecked::<u16>(a)
}
