// Which way the lines of a run stand: across, as at a vertical edge, with their taps side by side, or down, themselves side by side. This
// is chosen here, for words and for bytes.
ghost use Rattle.std.specs.Prelude.{◌<◌};
ghost use Rattle.lane_runs.specs.Stands.{Stands};

use crate::across::Across;
use crate::down::Down;
use tap_places::tap_run::TapRun;

#[derive(Clone, Copy)]
pub enum Direction {
    Across(Across),
    Down(Down),
}

impl Direction {
    // Of a run that has a position.
    pub fn of_unchecked(run: TapRun) -> Direction
        requires { 0 < run.n }
        ensures { Stands run result }
    {
        if run.step == 1 {
            return Direction::Across(Across {
                at: run.at,
                along: run.along,
                n: run.n,
            });
        }
        Direction::Down(Down {
            at: run.at,
            step: run.step,
            n: run.n,
        })
    }
}
