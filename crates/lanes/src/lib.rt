// The line filter on 16 lanes at once. Loops have no branch but the filter's own choices, which vectorise.
#![tactic(auto)]

ghost use Rattle.std.specs.Prelude.{◌≡◌, false, ◌≤◌, ◌<◌};
ghost use Rattle.line.specs.SampleFiltering.{sample_filtering};
ghost use Rattle.lanes.specs.Lanes.{Table, Lanes, NoneTo};

pub mod table;

use lane::Lane;
use lane_filters::{lane_four_unchecked, lane_fourteen_unchecked, lane_mask, lane_six_unchecked};
use line::line_strength::LineStrength;
use table::{each_lane_unchecked, lane_at_unchecked};

// n rounded up to whole vectors of 8 lanes, so that no loop ends in single lanes.
fn whole(n: usize) -> usize
    requires { n ≤ 16 }
    ensures { (n ≤ result) × (result ≤ 16) }
{
    if n <= 8 { 8 } else { 16 }
}

// Whether the filter mask is on in one of the first m lanes that is below n. Idle lanes would pass it. By number, since no slice
// of the table holds a lane. A loop and no fold: its invariant says which lanes are off, and of a fold a law would have to say it.
fn any_mask(t: &[u16; 256], m: usize, n: u16, f: LineStrength) -> bool
    requires { Table t.now × (m ≤ 16) }
    ensures { result ≡ false → NoneTo m n f.depth.bits f.limit f.blimit t.now }
{
    let mut on = false;
    for l in 0..m {
        let a = lane_at_unchecked(t, l);
        on |= lane_mask(a, f) & ((l as u16) < n);
    }
    on
}

// Filters the first n lanes. The answer is false where none of them changes, so that nothing need be stored. The size is a
// number, the standard's filterSize: 8.8.3 computes it, and keys pack it.
pub fn filter_lanes_unchecked(t: &mut [u16; 256], n: usize, size: u8, f: LineStrength) -> bool
    requires { (n ≤ 16) × Table t.old }
    ensures { Lanes n (sample_filtering f.depth.bits size f.limit f.blimit f.thresh) t.old t.new × (result ≡ false → t.new ≡ t.old) }
{
    let m = whole(n);
    if !any_mask(t, m, n as u16, f) {
        return false;
    }
    // A loop for each size, so that none asks for it.
    if size == 0 {
        each_lane_unchecked(t, m, |a: Lane<u16>, _: usize| { lane_four_unchecked(a, f) });
        return true;
    }
    if size == 1 {
        each_lane_unchecked(t, m, |a: Lane<u16>, _: usize| { lane_six_unchecked(a, f) });
        return true;
    }
    each_lane_unchecked(t, m, |a: Lane<u16>, _: usize| {
        lane_fourteen_unchecked(a, f)
    });
    true
}
