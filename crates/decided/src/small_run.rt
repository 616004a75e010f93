// Runs whose numbers are small, made of cells and joined. The definitions speak of runs of any numbers.
ghost use Rattle.std.specs.Prelude.{◌≡◌, ◌+◌, ◌≤◌, ◌<◌};
ghost use Rattle.decided.specs.KeyRuns.{key_run};
ghost use Rattle.decided.specs.Runs.{joins, longer};
ghost use Rattle.decided.specs.RunsLaws.{Small};
ghost use Rattle.pass_edges.specs.PassEdges.{edge_count};

use crate::EdgeRun;
use base::key::Key;
use geometry::{Pass, Superblock};
use pass_edges::along;

#[derive(Clone, Copy)]
pub struct SmallRun {
    pub of: EdgeRun,
    pub ghost small: { Small of },
}

// The positions of one cell along an edge, as a run by themselves.
#[tactic(auto, unfolding(crate::specs::KeyRuns::key_run), using(crate::proofs::KeyRunLaws::run_small))]
pub fn key_run_unchecked(s: Superblock, pass: Pass, key: Key, edge: usize, c: usize) -> SmallRun
    requires { (edge < edge_count s pass) × (c < 8) }
    ensures { result.of ≡ key_run s pass key.number edge c }
{
    SmallRun {
        of: EdgeRun {
            edge,
            first: along(s, pass, 8 * c),
            count: along(s, pass, 8),
            size: key.size(),
            level: key.level().number,
        },
    }
}

impl SmallRun {
    // Whether b goes on where the run ends, and may be joined to it.
    #[tactic(auto, unfolding(crate::specs::Runs::joins))]
    pub fn joins(self, b: SmallRun) -> bool
        ensures { result ≡ joins self.of b.of }
    {
        let a = self.of;
        let b = b.of;
        (a.edge == b.edge)
            & (a.first + a.count == b.first)
            & (a.size == b.size)
            & (a.level == b.level)
            & (a.count + b.count <= 16)
    }

    // The run with so many positions more.
    pub fn longer_unchecked(self, count: usize) -> SmallRun
        requires { self.of.count + count ≤ 16 }
        ensures { result.of ≡ longer self.of count }
    {
        let a = self.of;
        SmallRun {
            of: EdgeRun {
                count: a.count + count,
                ..a
            },
        }
    }
}
