// The edges of a pass, run by run.
ghost use Rattle.std.specs.Prelude.{◌≡◌, ◌^◌, length};
ghost use Rattle.decided.specs.KeyRuns.{key_runs};
ghost use Rattle.pass.specs.WorkLaws.{runs_filtered};
ghost use Rattle.window.specs.RangeLaws.{InRange};
ghost use Rattle.window.specs.WindowLaws.{Lent};

use crate::setting::PassSetting;
use base::level::Level;
use decided::PassRuns;
use keys::Keys;
use line::line_strength::LineStrength;
use positions::EdgePosition;
use runs::filter_run_unchecked;
use strength::limits_table;
use tap_places::run_start::RunStart;
use window::WindowShape;

// The work by the keys of the pass.
#[tactic(auto, using(window::specs::RangeLaws::range_wider, crate::specs::WorkLaws::depth_12))]
pub(crate) fn filter_keys(samples: &mut [u16], g: WindowShape, t: PassSetting, keys: &Keys)
    requires { Lent g (length samples.old) × InRange g (2 ^ t.depth.bits) samples.old }
    ensures { samples.new ≡ runs_filtered g t.s.of t.pass t.sharpness.level t.depth.bits (key_runs t.s.of t.pass keys.now.outer keys.now.inner) samples.old }
{
    let limits = limits_table();
    for small in PassRuns::new(t.s.of, t.pass, keys) {
        let a = small.of;
        let start = RunStart::from(EdgePosition {
            s: t.s,
            pass: t.pass,
            edge: a.edge,
            i: a.first,
        });
        let strength = limits.strength(Level { number: a.level }, t.sharpness);
        let f = LineStrength::new(t.depth, strength);
        filter_run_unchecked(samples, g, start, a.count, a.size, f);
    }
}
