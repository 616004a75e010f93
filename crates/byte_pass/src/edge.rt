// The edges of a pass over bytes, chunk by chunk.
ghost use Rattle.std.specs.Prelude.{◌≡◌, ◌/◌, ◌<◌, length};
ghost use Rattle.pass.specs.Chunks.{edge_chunks, pass_chunks};
ghost use Rattle.pass_edges.specs.PassEdges.{edge_count, edge_len};
ghost use Rattle.window.specs.WindowLaws.{Lent};

use crate::chunk::{Chunk, filter_chunk};
use crate::work::ByteWork;
use geometry::Pass;
use keys::Keys;
use pass::setting::PassSetting;
use pass_edges::{edge_count, edge_len};
use positions::PlacedSuperblock;
use strength::limits_table;
use window::WindowShape;

#[tactic(auto, using(pass::specs::ChunkLaws::edge_chunks_none))]
fn filter_edge(
    samples: &mut [u8],
    w: &ByteWork,
    keys: &Keys,
    s: PlacedSuperblock,
    pass: Pass,
    edge: usize,
)
    requires { Lent w.now.g (length samples.old) × (edge < edge_count s.of pass) }
    ensures { samples.new ≡ edge_chunks w.now.g s.of pass w.now.sharpness.level 8 keys.now.outer keys.now.inner edge (edge_len s.of pass / 16) samples.old }
{
    // Chunks are numbers here: an edge is no list that could be cut into them.
    for m in 0..edge_len(s.of, pass) / 16 {
        filter_chunk(samples, w, keys, Chunk { s, pass, edge, m });
    }
}

// The work by the keys of the pass.
#[tactic(auto, using(pass::specs::ChunkLaws::pass_chunks_none))]
pub(crate) fn filter_keys(samples: &mut [u8], g: WindowShape, t: PassSetting, keys: &Keys)
    requires { Lent g (length samples.old) }
    ensures { samples.new ≡ pass_chunks g t.s.of t.pass t.sharpness.level 8 keys.now.outer keys.now.inner (edge_count t.s.of t.pass) samples.old }
{
    let w = ByteWork {
        g,
        sharpness: t.sharpness,
        limits: limits_table(),
    };
    // Edges are numbers here: a pass has no list of them.
    for edge in 0..edge_count(t.s.of, t.pass) {
        filter_edge(samples, &w, keys, t.s, t.pass, edge);
    }
}
