// Where a run starts: its positions, how many of them have all their taps in the window, and the places of these taps.
ghost use Rattle.std.specs.Prelude.{true, ◌≡◌, ◌+◌, ◌≤◌, ◌<◌};
ghost use Rattle.positions.specs.Positions.{plane_x, plane_y};
ghost use Rattle.window.specs.InsideRun.{inside_run, first_tap, tap_step, along_step};
ghost use Rattle.window.specs.Window.{along_x, along_y};
ghost use Rattle.tap_places.specs.Near.{Near};

use crate::place::place_of;
use crate::position::Position;
use crate::tap_run::TapRun;
use geometry::Pass;
use positions::EdgePosition;
use window::WindowShape;

// The start of a run of positions along an edge: the first has its q0 at (x, y).
#[derive(Clone, Copy)]
pub struct RunStart {
    pub pass: Pass,
    pub x: usize,
    pub y: usize,
    pub ghost near_x: { x ≤ 131072 },
    pub ghost near_y: { y ≤ 131072 },
}

// How many numbers from a first one on are below an end, up to 16.
fn count_to(first: usize, end: usize) -> usize
    ensures { (result ≤ 16) × (0 < result → first + result ≤ end) }
{
    end.saturating_sub(first).min(16)
}

impl From<EdgePosition> for RunStart {
    ghost from_gives = { λ p start. (start.pass ≡ p.pass) × (start.x ≡ plane_x p.s.of p.pass p.edge p.i) × (start.y ≡ plane_y p.s.of p.pass p.edge p.i) };

    fn from(p: EdgePosition) -> RunStart {
        let x = p.plane_x();
        let y = p.plane_y();
        RunStart {
            pass: p.pass,
            x: x.0,
            y: y.0,
        }
    }
}

impl RunStart {
    pub fn position_unchecked(self, k: usize) -> Position
        requires { k ≤ 64 }
        ensures { (result.pass ≡ self.pass) × (result.x ≡ along_x self.pass self.x k) × (result.y ≡ along_y self.pass self.y k) }
    {
        match self.pass {
            Pass::Vertical => Position {
                pass: self.pass,
                x: self.x,
                y: self.y + k,
            },
            Pass::Horizontal => Position {
                pass: self.pass,
                x: self.x + k,
                y: self.y,
            },
        }
    }

    // Whether all taps of n positions are in the window.
    pub fn is_inside_unchecked(self, g: WindowShape, n: usize) -> bool
        requires { (n ≤ 64) × (g.top + g.height ≤ 65536) }
        ensures { result ≡ inside_run g self.pass self.x self.y n }
    {
        match self.pass {
            Pass::Vertical => (8 <= self.x)
                & (self.x + 8 <= g.width)
                & (g.top <= self.y)
                & (self.y + n <= g.top + g.height),
            Pass::Horizontal => (self.x + n <= g.width)
                & (g.top + 8 <= self.y)
                & (self.y + 8 <= g.top + g.height),
        }
    }

    // How many positions from the first on have all their taps in the window, up to 16. It stands beside the test of n positions, which
    // is for a caller that knows n: there one comparison is enough, where a count takes a difference and a bound, and stops at 16.
    pub fn inside_count_unchecked(self, g: WindowShape) -> usize
        requires { g.top + g.height ≤ 65536 }
        ensures { (result ≤ 16) × (0 < result → inside_run g self.pass self.x self.y result ≡ true) }
    {
        match self.pass {
            Pass::Vertical => {
                if (8 <= self.x) & (self.x + 8 <= g.width) & (g.top <= self.y) {
                    return count_to(self.y, g.top + g.height);
                }
                0
            }
            Pass::Horizontal => {
                if (g.top + 8 <= self.y) & (self.y + 8 <= g.top + g.height) {
                    return count_to(self.x, g.width);
                }
                0
            }
        }
    }

    // The taps of n positions.
    pub fn taps_unchecked(self, g: WindowShape, n: usize) -> TapRun
        requires { Near g self.pass self.x self.y × (g.stride ≤ 131072) }
        ensures { (result.at ≡ first_tap g self.pass self.x self.y) × (result.step ≡ tap_step g self.pass) × (result.along ≡ along_step g self.pass) × (result.n ≡ n) }
    {
        match self.pass {
            Pass::Vertical => TapRun {
                at: place_of(g, self.x - 8, self.y),
                step: 1,
                along: g.stride,
                n,
            },
            Pass::Horizontal => TapRun {
                at: place_of(g, self.x, self.y - 8),
                step: g.stride,
                along: 1,
                n,
            },
        }
    }
}
