// Positions whose taps stand side by side, as across a vertical edge: rows of the window are loaded, and turned into lanes.
ghost use Rattle.std.specs.Prelude.{◌≡◌, ◌+◌, ◌-◌, ◌*◌, ◌/◌, ◌≤◌, ◌<◌, length, get_or};
ghost use Rattle.lane_runs.specs.RowCopies.{rows_copied};
ghost use Rattle.lane_runs.specs.Spread.{SpacedRun, Spread, Taken};
ghost use Rattle.byte_rows.specs.Rows.{reach};

use crate::turn::{turn, turn_middle_back};
use lane_runs::across::Across;
use lane_runs::rows::{Places, Rows, copy_rows_unchecked};

// The middle N taps of each position, a constant, so that rows are vectors and the shuffles are unrolled.

#[tactic(auto, using(crate::specs::RowsLaws::across_loaded))]
fn load_taps<const N: usize>(t: &mut [u8; 256], samples: &[u8], lines: Across)
    requires { SpacedRun lines.at 1 lines.along lines.n samples.now × (0 < N) × (N ≤ 16) }
    ensures { Taken lines.at 1 lines.along lines.n ((16 - N) / 2) N samples.now t.new × (length t.new ≡ 256) }
{
    let first = (16 - N) / 2;
    let window = Places {
        at: lines.at + first,
        apart: lines.along,
    };
    let table = Places { at: 0, apart: N };
    copy_rows_unchecked(t, table, samples, window, N, Rows { lo: 0, m: lines.n });
    turn::<N>(t, 16 * first);
}

// From a table that is turned already.
fn store_taps<const N: usize>(samples: &mut [u8], lines: Across, t: &[u8; 256])
    requires { SpacedRun lines.at 1 lines.along lines.n samples.old × (0 < N) × (N ≤ 16) }
    ensures { samples.new ≡ rows_copied t.now 0 N (lines.at + (16 - N) / 2) lines.along N 0 lines.n samples.old }
{
    let window = Places {
        at: lines.at + (16 - N) / 2,
        apart: lines.along,
    };
    let table = Places { at: 0, apart: N };
    copy_rows_unchecked(samples, window, t, table, N, Rows { lo: 0, m: lines.n });
}

pub(crate) fn load_across(t: &mut [u8; 256], samples: &[u8], lines: Across, all: bool)
    requires { SpacedRun lines.at 1 lines.along lines.n samples.now }
    ensures { Taken lines.at 1 lines.along lines.n (8 - reach all) (2 * reach all) samples.now t.new × (length t.new ≡ 256) }
{
    if all {
        load_taps::<16>(t, samples, lines);
    } else {
        load_taps::<8>(t, samples, lines);
    }
}

pub(crate) fn store_across(samples: &mut [u8], lines: Across, t: &mut [u8; 256], all: bool)
    requires { SpacedRun lines.at 1 lines.along lines.n samples.old }
    ensures { Spread lines.at 1 lines.along lines.n (8 - reach all) (2 * reach all) (λ l k. get_or t.old (16 * k + l) 0) samples.old samples.new }
{
    if all {
        turn::<16>(t, 0);
        store_taps::<16>(samples, lines, t);
    } else {
        turn_middle_back(t);
        store_taps::<8>(samples, lines, t);
    }
}
