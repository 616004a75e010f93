// A position, and the places of its taps: reads past the window clamp to its border, and writes past it are dropped.
ghost use Rattle.std.specs.Prelude.{◌≡◌, true, ℕ, ◌+◌, ◌-◌, ◌≤◌, ◌<◌};
ghost use Rattle.window.specs.Window.{clamp, among, tap_x, tap_y, tap_read, tap_stored, tap_written};
ghost use Rattle.window.specs.WindowLaws.{Lent};
ghost use Rattle.tap_places.specs.Lendable.{Lendable};

use crate::place::place_of;
use geometry::Pass;
use window::WindowShape;

// A position of a pass, whose q0 is at (x, y). It is no start of a run, whose bounds are lower: a position may lie 64 behind it.
#[derive(Clone, Copy)]
pub struct Position {
    pub pass: Pass,
    pub x: usize,
    pub y: usize,
    pub ghost near_x: { x ≤ 131136 },
    pub ghost near_y: { y ≤ 131136 },
}

// A raised coordinate, brought into the n numbers from lo on. The bounds are raised for `clamp`, and the coordinate is lowered after:
// lowered before, it would be below 0 left of the plane and above it.
fn clamped(lo: usize, n: usize, u: usize) -> usize
    requires { (0 < n) × (lo + n ≤ 65536) }
    ensures { (result ≡ clamp lo n (u - 8)) × (lo ≤ result) × (result < lo + n) }
{
    u.clamp(lo + 8, lo + n + 7) - 8
}

// Whether a coordinate is one of the n numbers from lo on.
fn is_among(lo: usize, n: usize, u: usize) -> bool
    requires { lo + n ≤ 65544 }
    ensures { result ≡ among lo n u }
{
    (lo..lo + n).contains(&u)
}

impl Position {
    // That k is below 16 is a clause of each: a tap's number is the counter of a loop over 16, and a type of it would be made at each
    // turn.

    // The coordinates of a tap, raised by 8. Two methods, as the standard has an x and a y: the pass says which of them a tap moves
    // along, so told what moves, one method would be both.

    fn tap_x(self, k: usize) -> usize
        requires { k < 16 }
        ensures { (result ≡ tap_x self.pass self.x k) × (result ≤ 131151) }
    {
        match self.pass {
            Pass::Vertical => self.x + k,
            Pass::Horizontal => self.x + 8,
        }
    }

    fn tap_y(self, k: usize) -> usize
        requires { k < 16 }
        ensures { (result ≡ tap_y self.pass self.y k) × (result ≤ 131151) }
    {
        match self.pass {
            Pass::Vertical => self.y + 8,
            Pass::Horizontal => self.y + k,
        }
    }

    // The place that tap k is read from. It is in every list that the window can be lent in.
    pub fn read_place_unchecked(self, g: WindowShape, k: usize) -> usize
        requires { Lendable g × (k < 16) }
        ensures { (result ≡ tap_read g self.pass self.x self.y k) × ((n : ℕ) → Lent g n → result < n) }
    {
        let u = clamped(0, g.width, self.tap_x(k));
        let v = clamped(g.top, g.height, self.tap_y(k));
        place_of(g, u, v)
    }

    // Whether tap k is stored.
    pub fn is_stored_unchecked(self, g: WindowShape, k: usize) -> bool
        requires { Lendable g × (k < 16) }
        ensures { result ≡ tap_stored g self.pass self.x self.y k }
    {
        is_among(8, g.width, self.tap_x(k)) & is_among(8 + g.top, g.height, self.tap_y(k))
    }

    // The place that a tap k which is stored is written to.
    pub fn written_place_unchecked(self, g: WindowShape, k: usize) -> usize
        requires { Lendable g × (k < 16) × (tap_stored g self.pass self.x self.y k ≡ true) }
        ensures { (result ≡ tap_written g self.pass self.x self.y k) × ((n : ℕ) → Lent g n → result < n) }
    {
        place_of(g, self.tap_x(k) - 8, self.tap_y(k) - 8)
    }
}
