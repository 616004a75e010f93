// The runs of a pass by its keys, each given once no later cell can join it.
ghost use Rattle.std.specs.Prelude.{◌≡◌, ◌<◌};
ghost use Rattle.std.specs.Option.{ForSome};
ghost use Rattle.decided.specs.KeyRuns.{key_runs};

use crate::key_cells::KeyCells;
use crate::small_run::SmallRun;
use geometry::{Pass, Superblock};
use keys::Keys;

#[derive(Drop)]
pub struct PassRuns<'a> {
    cells: KeyCells<'a>,
    // The run that may still grow.
    pending: Option<SmallRun>,
    ghost filters: { ForSome pending (λ a. 0 < a.of.level) },
}

impl<'a> PassRuns<'a> {
    ghost use Rattle.decided.specs.CellsLeft.{Walking};
    ghost use Rattle.decided.specs.RunsLeft.{runs_left};

    #[tactic(auto, unfolding(crate::specs::RunsLeft::runs_left, crate::specs::RunsLeft::joined_on), using(crate::proofs::AllRuns::all_runs))]
    pub fn new(s: Superblock, pass: Pass, keys: &'a Keys) -> PassRuns<'a>
        ensures { Walking result.cells × (runs_left result ≡ key_runs s pass keys.now.outer keys.now.inner) }
    {
        PassRuns {
            cells: KeyCells::new(s, pass, keys),
            pending: None,
        }
    }
}

impl<'a> Iterator for PassRuns<'a> {
    ghost use Rattle.std.specs.Iterator.{item_count};
    ghost use Rattle.decided.specs.CellsLeft.{Walking};
    ghost use Rattle.decided.specs.RunsLeft.{runs_left, GivesRun};

    type Item = SmallRun;

    ghost can_next = { λ w. Walking w.cells };

    ghost next_gives = { GivesRun };

    ghost remaining = { item_count runs_left };

    // Nothing is pending before the first cell and behind the last. By while let: what is left of the walk stays in the field.
    #[inline(always)]
    #[tactic(auto, using(crate::specs::JoinLaws::joins_true, crate::specs::RunsLeft::runs_start, crate::specs::RunsLeft::runs_join, crate::specs::RunsLeft::runs_close, crate::specs::RunsLeft::runs_last, crate::specs::RunsLeft::runs_none))]
    fn next(&mut self) -> Option<SmallRun> {
        while let Some(cell) = self.cells.next() {
            match self.pending {
                Some(run) if run.joins(cell) => {
                    self.pending = Some(run.longer_unchecked(cell.of.count));
                }
                _ => {
                    if let Some(closed) = self.pending.replace(cell) {
                        return Some(closed);
                    }
                }
            }
        }
        self.pending.take()
    }
}
