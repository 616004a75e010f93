// Sixteen lanes side by side: tap k of lane l stands at 16 k + l. One list and no rows of 16, since bytes are shuffled across rows.
ghost use Rattle.std.specs.Prelude.{◌≡◌, List, ℕ, ◌+◌, ◌<◌, ◌≤◌, length, map};
ghost use Rattle.std.proofs.Common.{lit≤};
ghost use Rattle.lane.specs.LaneSamples.{values_of, four_of, six_of, fourteen_of};
ghost use Rattle.lanes.specs.Lanes.{lane_in, lane_of, put_lane, EachLane, Follows};

use lane::{Four, Lane, Six};
use line::masks::Sample;

// That l is below 16 is a clause here and below: a lane's number is the counter of a loop, and a type of it would be made at each turn.
pub fn lane_at_unchecked<T: Copy>(t: &[T; 256], l: usize) -> Lane<T>
    requires { l < 16 }
    ensures { result ≡ lane_in t.now l result }
{
    Lane {
        p7: t[l],
        p6: t[16 + l],
        p5: t[32 + l],
        p4: t[48 + l],
        p3: t[64 + l],
        p2: t[80 + l],
        p1: t[96 + l],
        p0: t[112 + l],
        q0: t[128 + l],
        q1: t[144 + l],
        q2: t[160 + l],
        q3: t[176 + l],
        q4: t[192 + l],
        q5: t[208 + l],
        q6: t[224 + l],
        q7: t[240 + l],
    }
}

// A part of a lane that a filter can change: the taps from `first` on.
pub trait Part<T>: Copy {
    ghost first: { ℕ };

    ghost taps: { Self → List T };

    fn put_unchecked(self, t: &mut [T; 256], l: usize)
        requires { l < 16 }
        ensures { t.new ≡ put_lane t.old l first (taps self) };

    ghost within: { (r : Self) → first + length (taps r) ≤ 16 };
}

// p1 to q1.
impl<T: Copy> Part<T> for Four<T> {
    ghost first = { 6 };

    ghost taps = { four_of };

    ghost within = { λ r. lit≤ tt };

    fn put_unchecked(self, t: &mut [T; 256], l: usize) {
        t[96 + l] = self.p1;
        t[112 + l] = self.p0;
        t[128 + l] = self.q0;
        t[144 + l] = self.q1;
    }
}

// p2 to q2.
impl<T: Copy> Part<T> for Six<T> {
    ghost first = { 5 };

    ghost taps = { six_of };

    ghost within = { λ r. lit≤ tt };

    fn put_unchecked(self, t: &mut [T; 256], l: usize) {
        t[80 + l] = self.p2;
        t[96 + l] = self.p1;
        t[112 + l] = self.p0;
        t[128 + l] = self.q0;
        t[144 + l] = self.q1;
        t[160 + l] = self.q2;
    }
}

// p6 to q6.
impl<T: Copy> Part<T> for Lane<T> {
    ghost first = { 1 };

    ghost taps = { fourteen_of };

    ghost within = { λ r. lit≤ tt };

    fn put_unchecked(self, t: &mut [T; 256], l: usize) {
        t[16 + l] = self.p6;
        t[32 + l] = self.p5;
        t[48 + l] = self.p4;
        t[64 + l] = self.p3;
        t[80 + l] = self.p2;
        t[96 + l] = self.p1;
        t[112 + l] = self.p0;
        t[128 + l] = self.q0;
        t[144 + l] = self.q1;
        t[160 + l] = self.q2;
        t[176 + l] = self.q3;
        t[192 + l] = self.q4;
        t[208 + l] = self.q5;
        t[224 + l] = self.q6;
    }
}

// The first n lanes, each by the filter. By number, since no slice of the table holds a lane.
pub fn each_lane_unchecked<T: Sample, R: Part<T>, F: Fn(Lane<T>, usize) -> R>(
    t: &mut [T; 256],
    n: usize,
    filter: F,
)
    requires few { n ≤ 16 }
    requires callable { (l : ℕ) (a : Lane T) → l < n → values_of T.value a ≡ lane_of (map T.value t.old) l → F.pre filter a l }
    ensures long { length t.new ≡ 256 }
    ensures filtered { (line : ℕ → List ℕ → List ℕ) → Follows T.value R.first R.taps (F.post filter) n (map T.value t.old) line → EachLane n line (map T.value t.old) (map T.value t.new) }
{
    for l in 0..n {
        let a = lane_at_unchecked(t, l);
        let r = filter(a, l);
        r.put_unchecked(t, l);
    }
}
