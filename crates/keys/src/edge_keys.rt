// The keys of a pass, as both passes and the run sheet go by them.
ghost use Rattle.std.specs.Prelude.{◌≡◌, ◌<◌, length};
ghost use Rattle.keys.specs.Keyed.{Keyed, key_for, keys_along};

use base::key::Key;

// The keys of the outer and of the inner edges, two arrays of bytes, since the loop that fills them stores a vector of each; and the first
// decided position that reads a cell without level, if one does.
#[derive(Clone, Copy)]
pub struct Keys {
    pub outer: [u8; 64],
    pub inner: [u8; 64],
    pub lacking: Option<usize>,
    pub ghost keyed: { Keyed outer inner },
}

// Edges and cells are a grid's numbers, below 16 and below 8 by a clause of each: nothing holds them but loops' counters.
impl Keys {
    // The keys of the 8 cells along an edge. The outer edges have the even numbers.
    #[tactic(auto, unfolding(crate::specs::Keyed::keys_along))]
    pub fn of_edge_unchecked(&self, edge: usize) -> &[u8]
        requires { edge < 16 }
        ensures { (result.now ≡ keys_along self.now.outer self.now.inner edge) × (length result.now ≡ 8) }
    {
        let keys = if edge % 2 == 0 {
            &self.outer
        } else {
            &self.inner
        };
        let at = 8 * (edge / 2);
        &keys[at..at + 8]
    }

    // The key of cell c along an edge.
    #[tactic(auto, using(crate::specs::KeyedLaws::along_key, crate::specs::KeyedLaws::along_length, crate::specs::KeyedLaws::key_small))]
    pub fn key_at_unchecked(&self, edge: usize, c: usize) -> Key
        requires { (edge < 16) × (c < 8) }
        ensures { result.number ≡ key_for self.now.outer self.now.inner edge c }
    {
        Key {
            number: self.of_edge_unchecked(edge)[c],
        }
    }
}
