// The wide filter (8.8.5.3). Sums grow from the edge outwards, so that nothing is subtracted.
#![tactic(auto)]

ghost use Rattle.std.specs.Prelude.{◌≡◌, ℕ, ◌+◌, ◌*◌, ◌/◌, ◌<◌, ◌≤◌};
ghost use Rattle.lane.specs.LaneSamples.{samples_of, six_of, fourteen_of, put_taps};
ghost use Rattle.wide_filter.specs.Taps.{Within};
ghost use Rattle.wide_filter.specs.WideFilter.{wide_filter};
ghost use Rattle.wide_filter.specs.WideSums.{AtMost, Side};

use lane::{Lane, Six};

// What the sums of one side are formed in: 16 of the samples, each at most `top`, and 8 fit it. Methods of its own, since the traits of
// the operators ask for no bound.
pub trait Sum: Copy {
    ghost top: { ℕ };

    ghost value: { Self → ℕ };

    fn of(n: u16) -> Self
        ensures { value result ≡ n };

    fn plus(self, other: Self) -> Self
        requires { value self + value other ≤ 16 * top + 8 }
        ensures { value result ≡ value self + value other };

    fn product(x: u16, n: u16) -> Self
        requires { x * n ≤ 16 * top + 8 }
        ensures { value result ≡ x * n };

    fn over(self, n: u16) -> u16
        requires { value self < n * (top + 1) }
        ensures { result ≡ value self / n };
}

// Samples of 12 bits.
impl Sum for u16 {
    ghost top = { 4095 };

    ghost value = { λ n. n };

    fn of(n: u16) -> u16 {
        n
    }

    fn plus(self, other: u16) -> u16 {
        self + other
    }

    fn product(x: u16, n: u16) -> u16 {
        x * n
    }

    fn over(self, n: u16) -> u16 {
        self / n
    }
}

// Any samples.
impl Sum for u32 {
    ghost top = { 65535 };

    ghost value = { λ n. n };

    fn of(n: u16) -> u32 {
        u32::from(n)
    }

    fn plus(self, other: u32) -> u32 {
        self + other
    }

    fn product(x: u16, n: u16) -> u32 {
        u32::from(x) * u32::from(n)
    }

    fn over(self, n: u16) -> u16 {
        (self / u32::from(n)) as u16
    }
}

// The samples of one side as the filter leaves them. x is that side and y the other, each counted from the edge; the last
// of the M samples stays.
pub fn side_unchecked<S: Sum, const M: usize>(x: [u16; M], y: [u16; M]) -> [u16; M]
    requires few { (0 < M) × (M ≤ 8) }
    requires small { AtMost S.top x × AtMost S.top y }
    ensures { Side M x.entry y.entry result }
{
    let n = M - 1;
    let mut near = S::of(M as u16);
    // No fold: plus asks that the sum fits, and a fold's closure does not know which samples are in the sum that it is given.
    for v in &x[..n] {
        near = near.plus(S::of(*v));
    }
    let mut far = S::of(0);
    let mut r = x;
    // By number: a round reads the other side from the edge on, and this one towards it.
    for k in 0..n {
        far = far.plus(S::of(y[k]));
        let i = n - 1 - k;
        let outer = S::product(x[n], (i + 1) as u16);
        let sum = outer.plus(near).plus(S::of(x[i])).plus(far);
        r[i] = sum.over(2 * M as u16);
    }
    r
}

// The six samples around the edge. One function for each size, since each answers the part of the line that it can change.
pub fn wide_six_unchecked<S: Sum>(a: Lane<u16>) -> Six<u16>
    requires { Within (S.top + 1) (samples_of a) }
    ensures { put_taps (samples_of a) 5 (six_of result) ≡ wide_filter 3 (samples_of a) }
{
    let p = [a.p0, a.p1, a.p2, a.p3];
    let q = [a.q0, a.q1, a.q2, a.q3];
    let r = side_unchecked::<S, 4>(p, q);
    let s = side_unchecked::<S, 4>(q, p);
    Six {
        p2: r[2],
        p1: r[1],
        p0: r[0],
        q0: s[0],
        q1: s[1],
        q2: s[2],
    }
}

// Of any samples.
pub fn wide_six(a: Lane<u16>) -> Six<u16>
    ensures { put_taps (samples_of a) 5 (six_of result) ≡ wide_filter 3 (samples_of a) }
{
    wide_six_unchecked::<u32>(a)
}

// The fourteen samples around the edge.
pub fn wide_fourteen_unchecked<S: Sum>(a: Lane<u16>) -> Lane<u16>
    requires { Within (S.top + 1) (samples_of a) }
    ensures { put_taps (samples_of a) 1 (fourteen_of result) ≡ wide_filter 4 (samples_of a) }
{
    let p = [a.p0, a.p1, a.p2, a.p3, a.p4, a.p5, a.p6, a.p7];
    let q = [a.q0, a.q1, a.q2, a.q3, a.q4, a.q5, a.q6, a.q7];
    let r = side_unchecked::<S, 8>(p, q);
    let s = side_unchecked::<S, 8>(q, p);
    Lane {
        p7: a.p7,
        p6: r[6],
        p5: r[5],
        p4: r[4],
        p3: r[3],
        p2: r[2],
        p1: r[1],
        p0: r[0],
        q0: s[0],
        q1: s[1],
        q2: s[2],
        q3: s[3],
        q4: s[4],
        q5: s[5],
        q6: s[6],
        q7: a.q7,
    }
}

// Of any samples.
pub fn wide_fourteen(a: Lane<u16>) -> Lane<u16>
    ensures { put_taps (samples_of a) 1 (fourteen_of result) ≡ wide_filter 4 (samples_of a) }
{
    wide_fourteen_unchecked::<u32>(a)
}
