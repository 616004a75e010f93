// The samples of at most 16 positions between a lent list of bytes and a table of lanes: tap k of position l at the place 16 * k + l.
#![tactic(auto)]

ghost use Rattle.std.specs.Prelude.{◌≡◌, ◌+◌, ◌-◌, ◌*◌, ◌<◌, length, get_or};
ghost use Rattle.lane_runs.specs.Spread.{SpacedRun, Spread, Taken};
ghost use Rattle.byte_rows.specs.Rows.{reach};

mod across;
mod down;
mod turn;

use across::{load_across, store_across};
use down::{load_down, store_down};
use lane_runs::direction::Direction;
use tap_places::tap_run::TapRun;

// That a run's lines are in the list is a clause of each, since the list is lent anew; that it has a position too, since a TapRun may
// have none.
//
// All taps are loaded, and stored, where all is set, else p3 to q3. What words and bytes share is the way of a run, `Direction`, and
// `copy_rows_unchecked`. The rest differs: words across go to their lanes one by one, where bytes are turned; and a table of words is
// zero where none is loaded, since lanes of words ask for samples of 12 bits.

pub fn load_lanes_unchecked(t: &mut [u8; 256], samples: &[u8], run: TapRun, all: bool)
    requires { SpacedRun run.at run.step run.along run.n samples.now × (0 < run.n) }
    ensures { Taken run.at run.step run.along run.n (8 - reach all) (2 * reach all) samples.now t.new × (length t.new ≡ 256) }
{
    match Direction::of_unchecked(run) {
        Direction::Across(lines) => load_across(t, samples, lines, all),
        Direction::Down(lines) => load_down(t, samples, lines, all),
    }
}

// The table is turned where positions are stored row by row.
pub fn store_lanes_unchecked(samples: &mut [u8], run: TapRun, t: &mut [u8; 256], all: bool)
    requires { SpacedRun run.at run.step run.along run.n samples.old × (0 < run.n) }
    ensures { Spread run.at run.step run.along run.n (8 - reach all) (2 * reach all) (λ l k. get_or t.old (16 * k + l) 0) samples.old samples.new }
{
    match Direction::of_unchecked(run) {
        Direction::Across(lines) => store_across(samples, lines, t, all),
        Direction::Down(lines) => store_down(samples, lines, t, all),
    }
}
