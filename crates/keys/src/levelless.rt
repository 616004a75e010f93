// The place of the first position that decides without level, by the words of a pass.
ghost use Rattle.std.specs.Prelude.{◌≡◌, ◌*◌, ◌≤◌, ◌<◌};
ghost use Rattle.base.specs.First.{first_found};
ghost use Rattle.decisions.specs.Decision.{cell_place};
ghost use Rattle.keys.specs.PlainKeys.{pairs, lack_at, place_by};

use crate::edge_limits::{entry_of, limits_of};
use crate::turned::{SmallTurned, pair_count};
use base::search::first_place;
use geometry::shr;

// Words and pass are two parameters here and above: the words are lent, and the pass is a value that each function has as its own.
//
// Whether cell k decides without level, 8 cells to an edge. The two edges of a pair read the same words.
#[tactic(auto, unfolding(crate::specs::PlainKeys::lack_at))]
fn lacks(words: &[u32; 64], t: SmallTurned, k: usize) -> bool
    requires { k < 128 }
    ensures { result ≡ lack_at t.of words.now k }
{
    let n = limits_of(t, k / 8);
    let w = words[8 * (k / 16) + k % 8];
    let a = (w >> t.of.log) % 4;
    let tx = (w >> t.of.tx) % 4;
    let entry = entry_of(w, a, tx, (k % 8) as u32, n);
    entry.lacking
}

// The first such cell, if there is one.
fn first_lack(words: &[u32; 64], t: SmallTurned) -> Option<usize>
    ensures { result ≡ first_found (lack_at t.of words.now) (16 * pairs t.of.sub) }
{
    first_place(16 * pair_count(t.of.sub), |k| lacks(words, t, k))
}

// The place of the first position of cell k.
fn cell_place(paired: bool, k: usize) -> usize
    requires { k ≤ 128 }
    ensures { result ≡ cell_place paired k }
{
    64 * (k / 8) + shr(8 * (k % 8), paired)
}

// The positions of a cell have one decision, so the first of the first such cell is the place.
#[tactic(auto, using(base::specs::First::place_found, base::specs::First::first_is))]
pub(crate) fn lacking_place(words: &[u32; 64], t: SmallTurned) -> Option<usize>
    ensures { result ≡ place_by t.of words.now }
{
    let k = first_lack(words, t)?;
    Some(cell_place(t.of.paired, k))
}
