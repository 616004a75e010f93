// What is decided by the limits of an edge: the key of each of its cells, and whether a level lacks.
ghost use Rattle.std.specs.Prelude.{◌≡◌, cond, ◌≤◌, ◌<◌};
ghost use Rattle.decisions.specs.Decision.{without_level};
ghost use Rattle.keys.specs.Keys.{key_of};
ghost use Rattle.keys.specs.PlainKeys.{halvings, own, limits_of, plain};

use crate::turned::SmallTurned;

// What decides of the cells along an edge.
#[derive(Clone, Copy)]
pub(crate) struct EdgeLimits {
    // How many cells are on screen, and how many may have transform edges.
    pub shown: u32,
    pub coded: u32,
    // Blocks and transforms of a logarithm below have an edge here.
    pub block: u32,
    pub transform: u32,
    // Whether the edge is at 32 samples, where size 0 becomes 1, and in the last cell of a subsampled plane, where size
    // 2 does.
    pub wide: bool,
    pub narrow: bool,
}

// The key of a cell at an edge, and whether it decides without level: a flag and no Option, since the key stands in either case.
#[derive(Clone, Copy)]
pub(crate) struct Entry {
    pub key: u8,
    pub lacking: bool,
}

// How often 2 divides an edge's number, up to 4 times.
#[tactic(auto, using(cells::specs::CellLaws::flag_bit, cells::specs::CellLaws::bit_small))]
fn halvings_of(edge: usize) -> u32
    ensures { (result ≡ halvings edge) × (result ≤ 4) }
{
    u32::from(edge % 2 == 0)
        + u32::from(edge % 4 == 0)
        + u32::from(edge % 8 == 0)
        + u32::from(edge % 16 == 0)
}

// The cell across in which an edge lies, from the superblock's first on.
fn own_cell(sub: bool, edge: usize) -> usize
    ensures { (result ≡ own sub edge) × (result ≤ edge) }
{
    if sub { edge } else { edge / 2 }
}

// What decides of the cells along an edge of a pass.
#[tactic(auto, unfolding(crate::specs::PlainKeys::limits_of), using(cells::specs::CellLaws::flag_bit, cells::specs::CellLaws::bit_small))]
pub(crate) fn limits_of(t: SmallTurned, edge: usize) -> EdgeLimits
    requires { edge < 16 }
    ensures { result ≡ limits_of t.of edge }
{
    let t = t.of;
    let at = t.start + own_cell(t.sub, edge);
    let on = (at < t.count) & !((edge == 0) & (t.start == 0));
    let n = halvings_of(edge);
    EdgeLimits {
        shown: if on { t.shown } else { 0 },
        coded: if edge % 2 == 1 { t.coded } else { 8 },
        block: n + u32::from(t.sub),
        transform: n + 1,
        wide: edge % 8 == 0,
        narrow: t.sub & (at + 1 == t.count),
    }
}

// By the word's bits and not by LfCell::from, which makes bytes of nine fields: the loop over cells counts in 32 bits, and the
// pass says which logarithm and which transform it reads.
//
// What cell c of an edge decides, whose word is w, with log the block's logarithm and tx the transform.
#[tactic(auto, unfolding(crate::specs::PlainKeys::plain, crate::specs::Keys::key_of), using(cells::specs::CellLaws::flag_bit, cells::specs::CellLaws::bit_small))]
pub(crate) fn entry_of(w: u32, log: u32, tx: u32, c: u32, n: EdgeLimits) -> Entry
    ensures { (result.key ≡ key_of (plain n log tx c w)) × (result.lacking ≡ without_level (plain n log tx c w)) }
{
    let level = w / 4096 % 64;
    let skipped = w / 524288 % 2 == 1;
    let present = w / 262144 % 2 == 1;
    let transform = (c < n.coded) & (tx < n.transform) & !skipped;
    let decided = (c < n.shown) & ((log < n.block) | transform);
    let size = u32::from(n.wide | (0 < tx)) + u32::from(!n.narrow & (1 < tx));
    let key = if decided & (0 < level) {
        64 * size + level
    } else {
        0
    };
    Entry {
        key: key as u8,
        lacking: decided & !present,
    }
}
