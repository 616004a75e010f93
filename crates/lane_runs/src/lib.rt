// Runs of at most 16 positions that share no samples, filtered side by side in lanes.
#![tactic(auto)]

ghost use Rattle.std.specs.Prelude.{◌≡◌};
ghost use Rattle.line.specs.SampleFiltering.{sample_filtering};
ghost use Rattle.window.specs.InsideRun.{plain_run};
ghost use Rattle.window.specs.Stencil.{in_turn};
ghost use Rattle.lane_runs.specs.Spread.{LaneRun};

pub mod across;
pub mod direction;
pub mod down;
mod lines;
pub mod rows;

use direction::Direction;
use line::line_strength::LineStrength;
use lines::filter_lines;
use tap_places::tap_run::TapRun;

// The work without tests, for a caller that has made them.
#[tactic(auto, unfolding(window::specs::Stencil::in_turn))]
pub fn filter_lane_run_unchecked(samples: &mut [u16], run: TapRun, size: u8, f: LineStrength)
    requires { LaneRun run.at run.step run.along run.n samples.old }
    ensures { samples.new ≡ in_turn (plain_run run.at run.step run.along (sample_filtering f.depth.bits size f.limit f.blimit f.thresh)) run.n samples.old }
{
    if run.n == 0 {
        return;
    }
    match Direction::of_unchecked(run) {
        Direction::Across(lines) => filter_lines(lines, samples, size, f),
        Direction::Down(lines) => filter_lines(lines, samples, size, f),
    }
}
