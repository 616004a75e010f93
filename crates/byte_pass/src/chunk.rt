// A chunk of an edge: 16 positions, each by the key of its cell.
ghost use Rattle.std.specs.Prelude.{◌≡◌, true, ◌*◌, ◌/◌, ◌≤◌, ◌<◌, length, get_or};
ghost use Rattle.pass.specs.Chunks.{keyed_run, chunk};
ghost use Rattle.pass_edges.specs.PassEdges.{edge_count, edge_len};
ghost use Rattle.positions.specs.Positions.{plane_x, plane_y};
ghost use Rattle.window.specs.InsideRun.{inside_run};
ghost use Rattle.window.specs.Stencil.{in_turn};
ghost use Rattle.window.specs.WindowLaws.{Lent};

use crate::border::filter_border;
use crate::chunk_keys::chunk_keys;
use crate::work::ByteWork;
use byte_chunks::filter_chunk_unchecked;
use byte_lanes::lane_keys::LaneKeys;
use geometry::Pass;
use keys::Keys;
use positions::{EdgePosition, PlacedSuperblock};
use tap_places::run_start::RunStart;

// Chunk m of an edge: its positions from 16 m on.
#[derive(Clone, Copy)]
pub(crate) struct Chunk {
    pub s: PlacedSuperblock,
    pub pass: Pass,
    pub edge: usize,
    pub m: usize,
    pub ghost edge_small: { edge < edge_count s.of pass },
    pub ghost m_small: { m < edge_len s.of pass / 16 },
}

impl Chunk {
    #[tactic(auto, using(pass_edges::specs::PassEdgesLaws::edge_count_small, pass_edges::specs::PassEdgesLaws::edge_len_small))]
    fn start(self) -> RunStart
        ensures { (result.pass ≡ self.pass) × (result.x ≡ plane_x self.s.of self.pass self.edge (16 * self.m)) × (result.y ≡ plane_y self.s.of self.pass self.edge (16 * self.m)) }
    {
        RunStart::from(EdgePosition {
            s: self.s,
            pass: self.pass,
            edge: self.edge,
            i: 16 * self.m,
        })
    }
}

// The first n positions of a chunk, whose taps are all in the window, in lanes.
fn filter_inside(samples: &mut [u8], w: &ByteWork, start: RunStart, n: usize, keys: &LaneKeys)
    requires { Lent w.now.g (length samples.old) × (inside_run w.now.g start.pass start.x start.y n ≡ true) × (n ≤ 16) }
    ensures { samples.new ≡ in_turn (keyed_run w.now.g start.pass start.x start.y w.now.sharpness.level 8 (λ j. get_or keys.now.of j 0)) n samples.old }
{
    let run = start.taps_unchecked(w.g, n);
    filter_chunk_unchecked(samples, run, keys, w.sharpness);
}

// The positions of a chunk: from the first on those inside the window in lanes, the others one by one.
fn filter_at(samples: &mut [u8], w: &ByteWork, start: RunStart, keys: &LaneKeys)
    requires { Lent w.now.g (length samples.old) }
    ensures { samples.new ≡ in_turn (keyed_run w.now.g start.pass start.x start.y w.now.sharpness.level 8 (λ j. get_or keys.now.of j 0)) 16 samples.old }
{
    let n = start.inside_count_unchecked(w.g);
    if 0 < n {
        filter_inside(samples, w, start, n, keys);
    }
    filter_border(samples, w, start, keys, n);
}

#[tactic(auto, using(pass::specs::ChunkLaws::chunk_idle))]
pub(crate) fn filter_chunk(samples: &mut [u8], w: &ByteWork, keys: &Keys, c: Chunk)
    requires { Lent w.now.g (length samples.old) }
    ensures { samples.new ≡ chunk w.now.g c.s.of c.pass w.now.sharpness.level 8 keys.now.outer keys.now.inner c.edge (16 * c.m) 16 samples.old }
{
    if let Some(along) = chunk_keys(keys, c) {
        filter_at(samples, w, c.start(), &along);
    }
}
