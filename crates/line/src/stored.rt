// What a wide filter leaves, stored in the line. Beside `Part` of lanes, which stores the same taps in a table of lanes: one trait for
// both would take a slice, a start and a step, and ask for room at each store, where these two ask nothing.
ghost use Rattle.std.specs.Prelude.{◌≡◌};
ghost use Rattle.lane.specs.LaneSamples.{six_of, fourteen_of, put_taps};

use lane::taps::*;
use lane::{Lane, Six};

pub(crate) fn store_six(t: &mut [u16; 16], r: Six<u16>)
    ensures { t.new ≡ put_taps t.old 5 (six_of r) }
{
    t[P2] = r.p2;
    t[P1] = r.p1;
    t[P0] = r.p0;
    t[Q0] = r.q0;
    t[Q1] = r.q1;
    t[Q2] = r.q2;
}

// p7 and q7 stay.
pub(crate) fn store_fourteen(t: &mut [u16; 16], r: Lane<u16>)
    ensures { t.new ≡ put_taps t.old 1 (fourteen_of r) }
{
    t[P6] = r.p6;
    t[P5] = r.p5;
    t[P4] = r.p4;
    t[P3] = r.p3;
    t[P2] = r.p2;
    t[P1] = r.p1;
    t[P0] = r.p0;
    t[Q0] = r.q0;
    t[Q1] = r.q1;
    t[Q2] = r.q2;
    t[Q3] = r.q3;
    t[Q4] = r.q4;
    t[Q5] = r.q5;
    t[Q6] = r.q6;
}
