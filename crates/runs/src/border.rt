// Runs at the border of the window, position by position.
ghost use Rattle.std.specs.Prelude.{◌≡◌, true, ◌≤◌, length};
ghost use Rattle.line.specs.SampleFiltering.{sample_filtering};
ghost use Rattle.window.specs.Stencil.{in_turn};
ghost use Rattle.window.specs.Window.{run_of};
ghost use Rattle.window.specs.WindowLaws.{Lent};

use border_position::filter_position_unchecked;
use line::line_strength::LineStrength;
use tap_places::run_start::RunStart;
use window::WindowShape;

// Positions are numbers: no list is walked. Bytes have a loop of their own, since there each position has a key: one function that takes
// a closure for each position's filter had more clauses than the two loops have lines.
#[tactic(auto, using(window::specs::StencilLaws::in_turn_none))]
pub(crate) fn filter_border(
    samples: &mut [u16],
    g: WindowShape,
    start: RunStart,
    n: usize,
    size: u8,
    f: LineStrength,
)
    requires { Lent g (length samples.old) × (n ≤ 64) }
    ensures { samples.new ≡ in_turn (run_of g start.pass start.x start.y (sample_filtering f.depth.bits size f.limit f.blimit f.thresh)) n samples.old }
{
    for k in 0..n {
        let p = start.position_unchecked(k);
        filter_position_unchecked(samples, g, p, size, f);
    }
}
