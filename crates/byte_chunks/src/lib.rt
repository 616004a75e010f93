// A chunk of at most 16 positions of an edge in a lent list of bytes: loaded as lanes, filtered by their keys, and stored.
#![tactic(auto)]

ghost use Rattle.std.specs.List.{fold};
ghost use Rattle.std.specs.Prelude.{◌≡◌, get_or, ◌||◌, leb, false};
ghost use Rattle.lane_runs.specs.Spread.{SpacedRun};
ghost use Rattle.lanes.specs.KeyLine.{key_line};
ghost use Rattle.window.specs.InsideRun.{plain_lines};
ghost use Rattle.window.specs.Stencil.{in_turn};
ghost use Rattle.byte_chunks.specs.Chunk.{any_large};

use base::sharpness::Sharpness;
use byte_lanes::lane_keys::LaneKeys;
use byte_lanes::{Changed, filter_byte_lanes};
use byte_rows::{load_lanes_unchecked, store_lanes_unchecked};
use tap_places::tap_run::TapRun;

// Whether a lane has a key of size 2, which reads all taps. By a fold, which vectorises: by `any` a chunk took 4 percent longer.
fn any_large(keys: &[u8; 16]) -> bool
    ensures { result ≡ fold (λ on key. on || leb 128 key) false keys.now }
{
    keys.iter().fold(false, |on, key| on | (128 <= *key))
}

// Taps that no key reads are not loaded, and taps that did not change not stored.
#[tactic(auto, unfolding(window::specs::Stencil::in_turn))]
pub fn filter_chunk_unchecked(
    samples: &mut [u8],
    run: TapRun,
    keys: &LaneKeys,
    sharpness: Sharpness,
)
    requires { SpacedRun run.at run.step run.along run.n samples.old }
    ensures { samples.new ≡ in_turn (plain_lines run.at run.step run.along (λ k. key_line sharpness.level 8 (get_or keys.now.of k 0))) run.n samples.old }
{
    if run.n == 0 {
        return;
    }
    let all = any_large(&keys.of);
    let mut t = [0u8; 256];
    load_lanes_unchecked(&mut t, samples, run, all);
    let changed = filter_byte_lanes(&mut t, keys, sharpness);
    match changed {
        Changed::Nothing => {}
        Changed::Inner => store_lanes_unchecked(samples, run, &mut t, false),
        Changed::Outer => store_lanes_unchecked(samples, run, &mut t, true),
    }
}
