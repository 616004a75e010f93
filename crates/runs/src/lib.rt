// Positions along an edge that one filter size and one strength serve.
#![tactic(auto)]

ghost use Rattle.std.specs.Prelude.{◌≡◌, true, ◌≤◌, length};
ghost use Rattle.line.specs.SampleFiltering.{sample_filtering};
ghost use Rattle.window.specs.Stencil.{in_turn};
ghost use Rattle.window.specs.Window.{run_of};
ghost use Rattle.window.specs.WindowLaws.{Lent};
ghost use Rattle.window.specs.RangeLaws.{InRange};

mod border;

use border::filter_border;
use lane_runs::filter_lane_run_unchecked;
use line::line_strength::LineStrength;
use tap_places::run_start::RunStart;
use window::WindowShape;

// n positions along an edge by one filter size and strength. Inside the window they are filtered in lanes, which ask for samples of 12
// bits. The work without tests, for a caller that has made them. The size is the standard's number, which 8.8.3 computes and keys pack.
pub fn filter_run_unchecked(
    samples: &mut [u16],
    g: WindowShape,
    start: RunStart,
    n: usize,
    size: u8,
    f: LineStrength,
)
    requires { Lent g (length samples.old) × (n ≤ 16) × InRange g 4096 samples.old }
    ensures { samples.new ≡ in_turn (run_of g start.pass start.x start.y (sample_filtering f.depth.bits size f.limit f.blimit f.thresh)) n samples.old }
{
    if start.is_inside_unchecked(g, n) {
        let run = start.taps_unchecked(g, n);
        filter_lane_run_unchecked(samples, run, size, f);
    } else {
        filter_border(samples, g, start, n, size, f);
    }
}
