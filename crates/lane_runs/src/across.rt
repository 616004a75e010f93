// Positions whose taps stand side by side, as across a vertical edge: each line is loaded into a lane.
ghost use Rattle.std.specs.Prelude.{◌≡◌, true, ◌+◌, ◌*◌, ◌<◌, length, get_or};
ghost use Rattle.window.specs.Stencil.{scatter};
ghost use Rattle.lane_runs.specs.Spread.{Spread, SpacedRun, Loaded};

use crate::lines::Lines;
use crate::rows::Rows;

// Loads the taps of the line whose p7 is at the place at into lane l.
#[tactic(auto, unfolding(window::specs::Stencil::scatter))]
fn load_lane(t: &mut [u16; 256], l: usize, samples: &[u16], at: usize, taps: Rows)
    requires { (l < 16) × (at + 15 < length samples.now) }
    ensures { t.new ≡ scatter (λ k. true) (λ k. 16 * (taps.lo + k) + l) (λ k. get_or samples.now (at + (taps.lo + k)) 0) taps.m t.old }
{
    let first = at + taps.lo;
    // With indices: a tap's number makes its place in the table, where the taps of a lane lie 16 apart.
    for (k, sample) in samples[first..first + taps.m].iter().enumerate() {
        t[16 * (taps.lo + k) + l] = *sample;
    }
}

#[tactic(auto, unfolding(window::specs::Stencil::scatter))]
fn store_lane(samples: &mut [u16], at: usize, t: &[u16; 256], l: usize, taps: Rows)
    requires { (l < 16) × (at + 15 < length samples.old) }
    ensures { samples.new ≡ scatter (λ k. true) (λ k. at + (taps.lo + k)) (λ k. get_or t.now (16 * (taps.lo + k) + l) 0) taps.m samples.old }
{
    // By iter_mut the loop is no shorter, and it is left to show what the changed part makes of the whole list.
    for k in 0..taps.m {
        samples[at + (taps.lo + k)] = t[16 * (taps.lo + k) + l];
    }
}

#[derive(Clone, Copy)]
pub struct Across {
    pub at: usize,
    // How far lines are apart.
    pub along: usize,
    pub n: usize,
    pub ghost some: { 0 < n },
}

impl Lines for Across {
    ghost at = { λ s. s.at };

    ghost step = { λ s. 1 };

    ghost along = { λ s. s.along };

    ghost n = { λ s. s.n };

    fn count(self) -> usize {
        self.n
    }

    fn gather(self, samples: &[u16], taps: Rows) -> [u16; 256] {
        let mut t = [0u16; 256];
        // By lane numbers: a lane is no part of the table that a loop could be lent, but every 16th entry.
        for l in 0..self.n {
            load_lane(&mut t, l, samples, self.at + l * self.along, taps);
        }
        t
    }

    fn scatter(self, samples: &mut [u16], t: &[u16; 256], taps: Rows) {
        // By lane numbers, since the lines lie apart in the window and the lanes do not: no one list holds them.
        for l in 0..self.n {
            store_lane(samples, self.at + l * self.along, t, l, taps);
        }
    }
}
