// The tests of a line (8.8.5.2), over samples of 16 bits and over bytes. Tests are joined by `&`, which makes no branch, so that
// a loop over lanes vectorises.
ghost use Rattle.std.specs.Prelude.{◌≡◌, ◌&&◌, ◌+◌, ◌*◌, ◌/◌, ◌<◌, ℕ, leb, min};
ghost use Rattle.std.specs.Ordering.{partial_le};
ghost use Rattle.line.specs.NatOrdered.{nat_ordered};
ghost use Rattle.base.specs.Notation.{abs_diff};
ghost use Rattle.lane.specs.LaneSamples.{values_of};
ghost use Rattle.line.specs.Masks.{hev_mask, filter_mask, flat_mask, flat_mask2};

use lane::Lane;

// A sample, or a limit, as the tests take it.
pub trait Sample: Copy + PartialOrd {
    ghost value: { Self → ℕ };

    // The greatest.
    ghost top: { ℕ };

    fn distance(self, other: Self) -> Self
        ensures { value result ≡ abs_diff (value self) (value other) };

    // The step across the edge, by the distances of its first two taps and of the next: it stops at the greatest number.
    fn step(inner: Self, outer: Self) -> Self
        ensures { value result ≡ min (value inner * 2 + value outer / 2) top };

    // The laws of PartialOrd say that it is an order, and not that it is the order of the values.
    ghost ordered: { (a b : Self) → partial_le ⟦<Self as PartialOrd>⟧.partial_cmp a b ≡ leb (value a) (value b) };
}

impl Sample for u16 {
    ghost value = { λ n. n };

    ghost top = { 65535 };

    ghost ordered = { nat_ordered };

    fn distance(self, other: u16) -> u16 {
        self.abs_diff(other)
    }

    fn step(inner: u16, outer: u16) -> u16 {
        inner.saturating_add(inner).saturating_add(outer / 2)
    }
}

impl Sample for u8 {
    ghost value = { λ n. n };

    ghost top = { 255 };

    ghost ordered = { nat_ordered };

    fn distance(self, other: u8) -> u8 {
        self.abs_diff(other)
    }

    fn step(inner: u8, outer: u8) -> u8 {
        inner.saturating_add(inner).saturating_add(outer / 2)
    }
}

// Whether two samples differ by no more than the limit.
fn near<T: Sample>(limit: T, a: T, b: T) -> bool
    ensures { result ≡ leb (abs_diff (T.value a) (T.value b)) (T.value limit) }
{
    a.distance(b) <= limit
}

// A limit below the greatest number is passed by a step that stops there, as by the whole one.
fn small_step<T: Sample>(blimit: T, p1: T, p0: T, q0: T, q1: T) -> bool
    requires { T.value blimit < T.top }
    ensures { result ≡ leb (abs_diff (T.value p0) (T.value q0) * 2 + abs_diff (T.value p1) (T.value q1) / 2) (T.value blimit) }
{
    T::step(p0.distance(q0), p1.distance(q1)) <= blimit
}

pub fn hev_mask<T: Sample>(a: Lane<T>, thresh: T) -> bool
    ensures { result ≡ hev_mask (T.value thresh) (values_of T.value a) }
{
    !near(thresh, a.p1, a.p0) | !near(thresh, a.q1, a.q0)
}

pub fn filter_mask_unchecked<T: Sample>(a: Lane<T>, limit: T, blimit: T) -> bool
    requires { T.value blimit < T.top }
    ensures { result ≡ filter_mask (T.value limit) (T.value blimit) (values_of T.value a) }
{
    near(limit, a.p3, a.p2)
        & near(limit, a.p2, a.p1)
        & near(limit, a.p1, a.p0)
        & near(limit, a.q1, a.q0)
        & near(limit, a.q2, a.q1)
        & near(limit, a.q3, a.q2)
        & small_step(blimit, a.p1, a.p0, a.q0, a.q1)
}

// A tap of each side near the side's first.
fn flat_at<T: Sample>(one: T, pk: T, p0: T, qk: T, q0: T) -> bool
    ensures { result ≡ (leb (abs_diff (T.value pk) (T.value p0)) (T.value one) && leb (abs_diff (T.value qk) (T.value q0)) (T.value one)) }
{
    near(one, pk, p0) & near(one, qk, q0)
}

pub fn flat_mask<T: Sample>(a: Lane<T>, one: T) -> bool
    ensures { result ≡ flat_mask (T.value one) (values_of T.value a) }
{
    flat_at(one, a.p1, a.p0, a.q1, a.q0)
        & flat_at(one, a.p2, a.p0, a.q2, a.q0)
        & flat_at(one, a.p3, a.p0, a.q3, a.q0)
}

pub fn flat_mask2<T: Sample>(a: Lane<T>, one: T) -> bool
    ensures { result ≡ flat_mask2 (T.value one) (values_of T.value a) }
{
    flat_at(one, a.p4, a.p0, a.q4, a.q0)
        & flat_at(one, a.p5, a.p0, a.q5, a.q0)
        & flat_at(one, a.p6, a.p0, a.q6, a.q0)
        & flat_at(one, a.p7, a.p0, a.q7, a.q0)
}
