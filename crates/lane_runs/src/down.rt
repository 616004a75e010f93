// Positions that stand side by side, as along a horizontal edge: the samples of one tap are a row of the window and of the table.
ghost use Rattle.std.specs.Prelude.{◌≡◌, ◌+◌, ◌*◌, ◌<◌, get_or};
ghost use Rattle.lane_runs.specs.Spread.{Spread, SpacedRun, Loaded};

use crate::lines::Lines;
use crate::rows::{Places, Rows, copy_rows_unchecked};

#[derive(Clone, Copy)]
pub struct Down {
    pub at: usize,
    // How far taps are apart.
    pub step: usize,
    pub n: usize,
    pub ghost some: { 0 < n },
}

impl Lines for Down {
    ghost at = { λ s. s.at };

    ghost step = { λ s. s.step };

    ghost along = { λ s. 1 };

    ghost n = { λ s. s.n };

    fn count(self) -> usize {
        self.n
    }

    fn gather(self, samples: &[u16], taps: Rows) -> [u16; 256] {
        let mut t = [0u16; 256];
        let table = Places { at: 0, apart: 16 };
        let window = Places {
            at: self.at,
            apart: self.step,
        };
        copy_rows_unchecked(&mut t, table, samples, window, self.n, taps);
        t
    }

    #[tactic(auto, using(crate::specs::RowCopiesLaws::rows_stored))]
    fn scatter(self, samples: &mut [u16], t: &[u16; 256], taps: Rows) {
        let table = Places { at: 0, apart: 16 };
        let window = Places {
            at: self.at,
            apart: self.step,
        };
        copy_rows_unchecked(samples, window, t, table, self.n, taps);
    }
}
