// Positions at the border of the window, one by one.
ghost use Rattle.std.specs.Prelude.{◌≡◌, ◌+◌, ◌-◌, ◌≤◌, ◌<◌, length, get_or};
ghost use Rattle.pass.specs.Chunks.{key_stencil, keyed_run};
ghost use Rattle.window.specs.Stencil.{applied, in_turn};
ghost use Rattle.window.specs.WindowLaws.{Lent};

use crate::work::ByteWork;
use base::depth::Depth;
use base::key::Key;
use border_position::filter_position_unchecked;
use byte_lanes::lane_keys::LaneKeys;
use line::line_strength::LineStrength;
use tap_places::position::Position;
use tap_places::run_start::RunStart;

// Level 0 filters nothing.
#[tactic(auto, unfolding(base::specs::Depth::supported), using(pass::specs::ChunkLaws::keyed_off))]
fn filter_keyed(samples: &mut [u8], w: &ByteWork, p: Position, key: Key)
    requires { Lent w.now.g (length samples.old) }
    ensures { samples.new ≡ applied (key_stencil w.now.g p.pass p.x p.y w.now.sharpness.level 8 key.number) samples.old }
{
    let level = key.level();
    if 0 < level.number {
        let strength = w.limits.strength(level, w.sharpness);
        let f = LineStrength::new(Depth::EIGHT, strength);
        filter_position_unchecked(samples, w.g, p, key.size(), f);
    }
}

// The positions of a chunk from a first one on; the chunk's own first is where it starts.
#[tactic(auto, using(window::specs::StencilLaws::in_turn_none))]
pub(crate) fn filter_border(
    samples: &mut [u8],
    w: &ByteWork,
    start: RunStart,
    keys: &LaneKeys,
    first: usize,
)
    requires { Lent w.now.g (length samples.old) × (first ≤ 16) }
    ensures { samples.new ≡ in_turn (λ k. keyed_run w.now.g start.pass start.x start.y w.now.sharpness.level 8 (λ j. get_or keys.now.of j 0) (first + k)) (16 - first) samples.old }
{
    // By number: a position is made of its place, and those of a chunk are no list.
    for (j, key) in keys.of[first..].iter().enumerate() {
        let p = start.position_unchecked(first + j);
        filter_keyed(samples, w, p, Key { number: *key });
    }
}
