// The cells of a pass that filter, edge by edge, each as a run by itself.
ghost use Rattle.std.specs.Prelude.{◌≡◌, ◌*◌};
ghost use Rattle.decided.specs.CellsLeft.{cells_in};
ghost use Rattle.pass_edges.specs.PassEdges.{edge_count};

use crate::small_run::{SmallRun, key_run_unchecked};
use geometry::{Pass, Superblock};
use keys::Keys;
use pass_edges::edge_count;
use std::ops::Range;

#[derive(Drop)]
pub(crate) struct KeyCells<'a> {
    s: Superblock,
    pass: Pass,
    keys: &'a Keys,
    // Those that were not walked.
    cells: Range<usize>,
}

impl<'a> KeyCells<'a> {
    ghost use Rattle.decided.specs.CellsLeft.{Walking, cells_left};

    pub(crate) fn new(s: Superblock, pass: Pass, keys: &'a Keys) -> KeyCells<'a>
        ensures { Walking result × (cells_left result ≡ cells_in s pass keys.now.outer keys.now.inner 0 (8 * edge_count s pass)) }
    {
        KeyCells {
            s,
            pass,
            keys,
            cells: 0..8 * edge_count(s, pass),
        }
    }
}

impl<'a> Iterator for KeyCells<'a> {
    ghost use Rattle.std.specs.Iterator.{item_count};
    ghost use Rattle.decided.specs.CellsLeft.{Walking, cells_left, GivesCell};

    type Item = SmallRun;

    ghost can_next = { Walking };

    ghost next_gives = { GivesCell };

    ghost remaining = { item_count cells_left };

    // Level 0 filters nothing. By while let: what is left of the walk stays in the field, for the next call.
    #[inline(always)]
    #[tactic(auto, unfolding(crate::specs::KeyRuns::key_run), using(pass_edges::specs::PassEdgesLaws::edge_count_small, crate::specs::CellsLeft::cells_end, crate::specs::CellsLeft::cells_off, crate::specs::CellsLeft::cells_on))]
    fn next(&mut self) -> Option<SmallRun> {
        while let Some(at) = self.cells.next() {
            let edge = at / 8;
            let c = at % 8;
            let key = self.keys.key_at_unchecked(edge, c);
            if key.level().number != 0 {
                return Some(key_run_unchecked(self.s, self.pass, key, edge, c));
            }
        }
        None
    }
}
