// The words that the edges of a pass read: cell c of edge pair e at 8 * e + c.
ghost use Rattle.std.specs.Prelude.{◌≡◌, ◌+◌, ◌*◌, ◌≤◌, ◌<◌, length};
ghost use Rattle.base.specs.Filled.{filled};
ghost use Rattle.keys.specs.PlainKeys.{pairs, rounded, clamped, base_of, place_from, word_from, fetched};

use crate::turned::{SmallTurned, pair_count};
use geometry::shl_unchecked;
use word_bytes::Words;

// The place that is so many steps behind another.
fn place_at(base: usize, steps: usize, step: usize) -> usize
    requires { (base ≤ 65536) × (steps < 8) × (step ≤ 8192) }
    ensures { (result ≡ base + steps * step) × (result ≤ base + 57344) }
{
    base + steps * step
}

// The cell along that cell c reads.
fn rounded_cell(paired: bool, c: usize) -> usize
    ensures { (result ≡ rounded paired c) × (result ≤ c) }
{
    if paired { c - c % 2 } else { c }
}

// The place of the cell that cell c reads, in a list of so many words. A place behind the list is off the screen, where any word is
// as good as another: so nothing branches.
fn place_from(base: usize, paired: bool, along: usize, c: usize, size: usize) -> usize
    requires { (base ≤ 65536) × (along ≤ 8192) × (c < 8) × (0 < size) }
    ensures { (result ≡ clamped (place_from base paired along c) size) × (result < size) }
{
    let place = place_at(base, rounded_cell(paired, c), along);
    if place < size { place } else { 0 }
}

// The place of the first cell that edge pair e reads.
fn base_of(t: SmallTurned, e: usize) -> usize
    requires { e < pairs t.of.sub }
    ensures { (result ≡ base_of t.of e) × (result ≤ 65536) }
{
    place_at(t.of.from, shl_unchecked(e, t.of.sub), t.of.across)
}

// Fetches the words of edge pair e. The loop has no branch.
#[tactic(auto, using(crate::specs::PlainKeysLaws::started, crate::specs::PlainKeysLaws::word_more))]
fn fetch_pair<C: Words>(words: &mut [u32; 64], cells: C, t: SmallTurned, e: usize)
    requires { (e < pairs t.of.sub) × (0 < length (C.words cells)) }
    ensures { words.new ≡ filled (word_from (base_of t.of e) t.of.paired t.of.along (C.words cells)) (8 * e) 8 words.old }
{
    let base = base_of(t, e);
    let size = cells.count();
    // By an index, of which a word's place in the cells is made: of iter_mut a proof knows nothing but the length.
    for c in 0..8 {
        let at = place_from(base, t.of.paired, t.of.along, c, size);
        words[8 * e + c] = cells.word_unchecked(at);
    }
}

#[tactic(auto, using(crate::specs::PlainKeysLaws::started, crate::specs::PlainKeysLaws::more_words))]
pub(crate) fn fetch<C: Words>(words: &mut [u32; 64], cells: C, t: SmallTurned)
    requires { 0 < length (C.words cells) }
    ensures { words.new ≡ fetched t.of (C.words cells) words.old }
{
    // By its number, since a pair's place in the cells is made of it.
    for e in 0..pair_count(t.of.sub) {
        fetch_pair(words, cells, t, e);
    }
}
