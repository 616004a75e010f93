// Words, and words that arrive as bytes, the most significant first.
#![tactic(auto)]

ghost use Rattle.std.specs.Prelude.{◌≡◌, List, ℕ, ◌+◌, ◌*◌, ◌≤◌, ◌<◌, length, get_or};
ghost use Rattle.word_bytes.specs.WordBytes.{bytes_at, words_of};

pub fn word_at_unchecked(bytes: &[u8], at: usize) -> u32
    requires { at + 4 ≤ length bytes.now }
    ensures { result ≡ bytes_at bytes.now at 4 }
{
    u32::from_be_bytes([bytes[at], bytes[at + 1], bytes[at + 2], bytes[at + 3]])
}

// A list of words that is lent: as words, or as bytes.
pub trait Words: Copy {
    ghost words: { Self → List ℕ };

    fn count(self) -> usize
        ensures { result ≡ length (words self) };

    fn word_unchecked(self, k: usize) -> u32
        requires { k < length (words self) }
        ensures { result ≡ get_or (words self) k 0 };
}

impl<'a> Words for &'a [u32] {
    ghost words = { λ s. s.now };

    fn count(self) -> usize {
        self.len()
    }

    fn word_unchecked(self, k: usize) -> u32 {
        self[k]
    }
}

impl<'a> Words for &'a [u8] {
    ghost words = { λ s. words_of s.now };

    #[tactic(auto, using(crate::specs::WordBytesLaws::each_word))]
    fn count(self) -> usize {
        self.len() / 4
    }

    #[tactic(auto, using(crate::specs::WordBytesLaws::each_word))]
    fn word_unchecked(self, k: usize) -> u32 {
        word_at_unchecked(self, 4 * k)
    }
}
