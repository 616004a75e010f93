// The keys of a chunk, one for each of its 16 positions.
ghost use Rattle.std.specs.Prelude.{◌≡◌, not, ◌||◌, false, ℕ, ◌+◌, ◌*◌, ◌/◌, ◌%◌, ◌<◌, eqb, get_or};
ghost use Rattle.std.specs.List.{fold};
ghost use Rattle.pass.specs.Chunks.{key_along};
ghost use Rattle.byte_pass.specs.ChunkKeys.{CellKeys, KeysIfAny};

use crate::chunk::Chunk;
use byte_lanes::lane_keys::LaneKeys;
use keys::Keys;
use pass_edges::along;
use std::array;

// Whether one of the cells filters. By a fold: by `any` a pass without levels took 4 percent longer.
fn any_filters(cells: &[u8]) -> bool
    ensures { result ≡ fold (λ any key. any || not (eqb (key % 64) 0)) false cells.now }
{
    cells.iter().fold(false, |any, key| any | (*key % 64 != 0))
}

// The keys of 16 positions, whose cells have len positions each.
fn spread(cells: &[u8], len: usize) -> [u8; 16]
    requires { CellKeys len cells.now }
    ensures { (k : ℕ) → k < 16 → get_or result k 0 ≡ get_or cells.now (k / len) 0 }
{
    array::from_fn(move |k| cells[k / len])
}

// The same, or None if none of the cells filters. They are looked at, before their keys are spread.
#[tactic(auto, using(crate::specs::ChunkKeysLaws::none_filters))]
fn keys_of_cells(cells: &[u8], len: usize) -> Option<LaneKeys>
    requires { CellKeys len cells.now }
    ensures { KeysIfAny (λ k. get_or cells.now (k / len) 0) result }
{
    if !any_filters(cells) {
        return None;
    }
    Some(LaneKeys {
        of: spread(cells, len),
    })
}

// The keys of a chunk, or None if none of its positions is filtered. A cell has 8 positions along an edge, or 4: constants, so that
// keys are spread by vectors.
#[tactic(auto, using(pass_edges::specs::PassEdgesLaws::edge_count_small, pass_edges::specs::PassEdgesLaws::edge_len_small))]
pub(crate) fn chunk_keys(keys: &Keys, c: Chunk) -> Option<LaneKeys>
    ensures { KeysIfAny (λ k. key_along c.s.of c.pass keys.now.outer keys.now.inner c.edge (16 * c.m + k)) result }
{
    let cells = keys.of_edge_unchecked(c.edge);
    let m = c.m;
    if along(c.s.of, c.pass, 8) == 8 {
        return keys_of_cells(&cells[2 * m..2 * m + 2], 8);
    }
    keys_of_cells(&cells[4 * m..4 * m + 4], 4)
}
