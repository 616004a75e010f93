// The lines of a run, which stand one way or the other: loaded into lanes, filtered, and stored.
ghost use Rattle.std.specs.Prelude.{◌≡◌, ℕ, ◌+◌, ◌-◌, ◌*◌, get_or};
ghost use Rattle.line.specs.SampleFiltering.{sample_filtering};
ghost use Rattle.line.specs.SampleFilteringLaws.{reads, changes};
ghost use Rattle.window.specs.InsideRun.{plain_run};
ghost use Rattle.window.specs.Stencil.{in_turn};
ghost use Rattle.lane_runs.specs.Spread.{Spread, SpacedRun, LaneRun, Loaded};

use crate::rows::Rows;
use lanes::filter_lanes_unchecked;
use line::line_strength::LineStrength;

// Lines whose taps, or which themselves, stand side by side. That they are in the list, and share no sample, is a clause here and in
// what calls it: the list is lent anew to each call.
pub(crate) trait Lines: Copy {
    // The place of the first line's p7, how far taps are apart, and lines, and how many lines there are.
    ghost at: { Self → ℕ };

    ghost step: { Self → ℕ };

    ghost along: { Self → ℕ };

    ghost n: { Self → ℕ };

    fn count(self) -> usize
        ensures { result ≡ n self };

    fn gather(self, samples: &[u16], taps: Rows) -> [u16; 256]
        requires { SpacedRun (at self) (step self) (along self) (n self) samples.now }
        ensures { Loaded (at self) (step self) (along self) (n self) taps.lo taps.m samples.now result };

    fn scatter(self, samples: &mut [u16], t: &[u16; 256], taps: Rows)
        requires { SpacedRun (at self) (step self) (along self) (n self) samples.old }
        ensures { Spread (at self) (step self) (along self) (n self) taps.lo taps.m (λ l k. get_or t.now (16 * k + l) 0) samples.old samples.new };
}

// The taps that a size reads, as many on each side of the edge, and those that it can change. A size is the standard's number: 8.8.3
// computes it, keys pack it, and every number above 1 filters as 2 does.

fn read_taps(size: u8) -> Rows
    ensures { (result.lo ≡ 8 - reads size) × (result.m ≡ 2 * reads size) }
{
    if size < 2 {
        Rows { lo: 4, m: 8 }
    } else {
        Rows { lo: 0, m: 16 }
    }
}

fn changed_taps(size: u8) -> Rows
    ensures { (result.lo ≡ 8 - changes size) × (result.m ≡ 2 * changes size) }
{
    match size {
        0 => Rows { lo: 6, m: 4 },
        1 => Rows { lo: 5, m: 6 },
        _ => Rows { lo: 1, m: 14 },
    }
}

// A constant size, so that the numbers of taps are constants and the loops over taps are unrolled.
#[tactic(auto, using(crate::specs::SpreadLaws::loaded_table, crate::specs::LaneRunLaws::lanes_kept))]
fn filter_sized<L: Lines, const SIZE: u8>(lines: L, samples: &mut [u16], f: LineStrength)
    requires { LaneRun (L.at lines) (L.step lines) (L.along lines) (L.n lines) samples.old }
    ensures { samples.new ≡ in_turn (plain_run (L.at lines) (L.step lines) (L.along lines) (sample_filtering f.depth.bits SIZE f.limit f.blimit f.thresh)) (L.n lines) samples.old }
{
    let mut t = lines.gather(samples, read_taps(SIZE));
    if filter_lanes_unchecked(&mut t, lines.count(), SIZE, f) {
        lines.scatter(samples, &t, changed_taps(SIZE));
    }
}

pub(crate) fn filter_lines<L: Lines>(lines: L, samples: &mut [u16], size: u8, f: LineStrength)
    requires { LaneRun (L.at lines) (L.step lines) (L.along lines) (L.n lines) samples.old }
    ensures { samples.new ≡ in_turn (plain_run (L.at lines) (L.step lines) (L.along lines) (sample_filtering f.depth.bits size f.limit f.blimit f.thresh)) (L.n lines) samples.old }
{
    match size {
        0 => filter_sized::<L, 0>(lines, samples, f),
        1 => filter_sized::<L, 1>(lines, samples, f),
        _ => filter_sized::<L, 2>(lines, samples, f),
    }
}
