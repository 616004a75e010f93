// The wide filter (8.8.5.3) on bytes. Its sums take 16 bits: the lane is widened, and what it gives is made bytes again. A filter
// generic over the sample would carry the type of its sums beside it, and speak of the value of each sample that it reads.
ghost use Rattle.std.specs.Prelude.{◌≡◌};
ghost use Rattle.lane.specs.LaneSamples.{samples_of, six_of, fourteen_of, put_taps};
ghost use Rattle.wide_filter.specs.WideFilter.{wide_filter};
ghost use Rattle.byte_filters.specs.ByteBounds.{SixBytes, FourteenBytes};

use lane::{Lane, Six};
use wide_filter::{wide_fourteen_unchecked, wide_six_unchecked};

// Means of bytes, which are bytes. One function for each size, here and below, since each answers the part of the lane that it can
// change.

fn six_bytes(r: Six<u16>) -> Six<u8>
    requires { SixBytes r }
    ensures { six_of result ≡ six_of r }
{
    Six {
        p2: r.p2 as u8,
        p1: r.p1 as u8,
        p0: r.p0 as u8,
        q0: r.q0 as u8,
        q1: r.q1 as u8,
        q2: r.q2 as u8,
    }
}

// p7 and q7 stay.
fn fourteen_bytes(a: Lane<u8>, r: Lane<u16>) -> Lane<u8>
    requires { FourteenBytes r }
    ensures { fourteen_of result ≡ fourteen_of r }
{
    Lane {
        p7: a.p7,
        p6: r.p6 as u8,
        p5: r.p5 as u8,
        p4: r.p4 as u8,
        p3: r.p3 as u8,
        p2: r.p2 as u8,
        p1: r.p1 as u8,
        p0: r.p0 as u8,
        q0: r.q0 as u8,
        q1: r.q1 as u8,
        q2: r.q2 as u8,
        q3: r.q3 as u8,
        q4: r.q4 as u8,
        q5: r.q5 as u8,
        q6: r.q6 as u8,
        q7: a.q7,
    }
}

pub(crate) fn wide_six(a: Lane<u8>) -> Six<u8>
    ensures { put_taps (samples_of a) 5 (six_of result) ≡ wide_filter 3 (samples_of a) }
{
    six_bytes(wide_six_unchecked::<u16>(Lane::from(a)))
}

pub(crate) fn wide_fourteen(a: Lane<u8>) -> Lane<u8>
    ensures { put_taps (samples_of a) 1 (fourteen_of result) ≡ wide_filter 4 (samples_of a) }
{
    fourteen_bytes(a, wide_fourteen_unchecked::<u16>(Lane::from(a)))
}
