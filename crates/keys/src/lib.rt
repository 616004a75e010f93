// The keys of a pass over a superblock of a plane, and the place of a level that lacks, by cells as words or as bytes.
#![tactic(auto)]

ghost use Rattle.std.specs.Prelude.{◌≡◌, ◌+◌, ◌*◌, ◌≤◌, ◌<◌, length};
ghost use Rattle.base.specs.Filled.{filled};
ghost use Rattle.base.specs.First.{found};
ghost use Rattle.geometry.specs.Frame.{cells_from};
ghost use Rattle.keys.specs.Keys.{Told};
ghost use Rattle.keys.specs.PlainKeys.{turned_of, limits_of, pairs, key_by, lack_from, plain_key, plain_lack, PlainTold};

mod edge_keys;
mod edge_limits;
mod fetch;
mod levelless;
mod turned;

pub use edge_keys::Keys;
use edge_limits::{entry_of, limits_of};
use fetch::fetch;
use geometry::Pass;
use levelless::lacking_place;
use positions::PlacedSuperblock;
use turned::{SmallTurned, pair_count, turned_of};
use word_bytes::Words;

// Stores the keys of edge pair e. The loop has no branch, which vectorises.
#[tactic(auto, using(crate::specs::PlainKeysLaws::started, crate::specs::PlainKeysLaws::key_more, crate::specs::PlainKeysLaws::lack_more))]
fn put_pair(
    outer: &mut [u8; 64],
    inner: &mut [u8; 64],
    words: &[u32; 64],
    t: SmallTurned,
    e: usize,
) -> bool
    requires { e < 8 }
    ensures outer { outer.new ≡ filled (key_by (limits_of t.of (2 * e)) t.of.log t.of.tx words.now) (8 * e) 8 outer.old }
    ensures inner { inner.new ≡ filled (key_by (limits_of t.of (2 * e + 1)) t.of.log t.of.tx words.now) (8 * e) 8 inner.old }
    ensures lacking { result ≡ found (lack_from (limits_of t.of (2 * e)) (limits_of t.of (2 * e + 1)) t.of.log t.of.tx words.now (8 * e)) 8 }
{
    let n = limits_of(t, 2 * e);
    let m = limits_of(t, 2 * e + 1);
    let mut lacking = false;
    // By an index, a place in three lists: of iter_mut a proof knows nothing but the length.
    for c in 0..8 {
        let w = words[8 * e + c];
        let log = (w >> t.of.log) % 4;
        let tx = (w >> t.of.tx) % 4;
        let p = entry_of(w, log, tx, c as u32, n);
        let q = entry_of(w, log, tx, c as u32, m);
        outer[8 * e + c] = p.key;
        inner[8 * e + c] = q.key;
        let outside = p.lacking;
        let inside = q.lacking;
        lacking = lacking | (outside | inside);
    }
    lacking
}

// Stores the keys of all edges. True where a level lacks.
#[tactic(auto, using(crate::specs::PlainKeysLaws::started, crate::specs::PlainKeysLaws::more_keys, crate::specs::PlainKeysLaws::more_lacks))]
fn put_keys(outer: &mut [u8; 64], inner: &mut [u8; 64], words: &[u32; 64], t: SmallTurned) -> bool
    ensures outer { outer.new ≡ filled (plain_key t.of words.now 0) 0 (8 * pairs t.of.sub) outer.old }
    ensures inner { inner.new ≡ filled (plain_key t.of words.now 1) 0 (8 * pairs t.of.sub) inner.old }
    ensures lacking { result ≡ found (plain_lack t.of words.now) (8 * pairs t.of.sub) }
{
    let mut lacking = false;
    // By its number, since a pair's limits and places are made of it.
    for e in 0..pair_count(t.of.sub) {
        let r = put_pair(outer, inner, words, t, e);
        lacking = lacking | r;
    }
    lacking
}

// The keys by the words that were fetched. The arrays are local here, which the loop needs to become vectors, and the numbers of the
// pass are made anew: handed over in memory they took 5 percent longer. A place is looked for only after a hit.
#[tactic(auto, using(crate::proofs::KeyedLaws::keyed))]
fn keys_by(words: &[u32; 64], s: PlacedSuperblock, pass: Pass, chroma: bool) -> Keys
    ensures { PlainTold (turned_of s.of pass chroma) words.now result }
{
    let t = turned_of(s, pass, chroma);
    let mut outer = [0u8; 64];
    let mut inner = [0u8; 64];
    let lacking = if put_keys(&mut outer, &mut inner, words, t) {
        lacking_place(words, t)
    } else {
        None
    };
    Keys {
        outer,
        inner,
        lacking,
    }
}

// The keys of all edges of a pass, and the place of the first decided position whose cell has no level. That the cells reach to the
// superblock's last is a clause: a fact of both together, which no value carries.
pub fn keys_unchecked<C: Words>(cells: C, s: PlacedSuperblock, pass: Pass, chroma: bool) -> Keys
    requires { cells_from s.of.row s.of.cols s.of.rows ≤ length (C.words cells) }
    ensures { Told s.of pass chroma (C.words cells) result }
{
    let mut words = [0u32; 64];
    fetch(&mut words, cells, turned_of(s, pass, chroma));
    keys_by(&words, s, pass, chroma)
}
