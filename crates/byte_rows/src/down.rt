// Positions that stand side by side, as along a horizontal edge: the samples of one tap are a row of the window and of the table.
ghost use Rattle.std.specs.Prelude.{◌≡◌, ◌+◌, ◌-◌, ◌*◌, length, get_or};
ghost use Rattle.lane_runs.specs.Spread.{SpacedRun, Spread, Taken};
ghost use Rattle.byte_rows.specs.Rows.{reach};

use lane_runs::down::Down;
use lane_runs::rows::{Places, Rows, copy_rows_unchecked};

// The number of rows is a constant in each branch, here and in `store_down`, so that the copies are unrolled: with the rows chosen first
// and one call for both, loading and storing took 25 to 55 percent longer.
#[tactic(auto, using(lane_runs::specs::RowCopiesLaws::rows_loaded))]
pub(crate) fn load_down(t: &mut [u8; 256], samples: &[u8], lines: Down, all: bool)
    requires { SpacedRun lines.at lines.step 1 lines.n samples.now }
    ensures { Taken lines.at lines.step 1 lines.n (8 - reach all) (2 * reach all) samples.now t.new × (length t.new ≡ 256) }
{
    let window = Places {
        at: lines.at,
        apart: lines.step,
    };
    let table = Places { at: 0, apart: 16 };
    if all {
        copy_rows_unchecked(t, table, samples, window, lines.n, Rows { lo: 0, m: 16 });
    } else {
        copy_rows_unchecked(t, table, samples, window, lines.n, Rows { lo: 4, m: 8 });
    }
}

pub(crate) fn store_down(samples: &mut [u8], lines: Down, t: &[u8; 256], all: bool)
    requires { SpacedRun lines.at lines.step 1 lines.n samples.old }
    ensures { Spread lines.at lines.step 1 lines.n (8 - reach all) (2 * reach all) (λ l k. get_or t.now (16 * k + l) 0) samples.old samples.new }
{
    let window = Places {
        at: lines.at,
        apart: lines.step,
    };
    let table = Places { at: 0, apart: 16 };
    if all {
        copy_rows_unchecked(samples, window, t, table, lines.n, Rows { lo: 0, m: 16 });
    } else {
        copy_rows_unchecked(samples, window, t, table, lines.n, Rows { lo: 4, m: 8 });
    }
}
