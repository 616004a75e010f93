// The test of packed cells: of a word, and of the first words of a list.
#![tactic(auto)]

ghost use Rattle.std.specs.Prelude.{◌≡◌, ℕ, ◌||◌, ◌≤◌, ◌<◌, length, true, false, Some, None};
ghost use Rattle.std.specs.List.{fold, range_with_len};
ghost use Rattle.base.specs.First.{first_found};
ghost use Rattle.bad_words.specs.BadWord.{bad_word, bad_cell};

use word_bytes::Words;

// Document 01's test 11 of a word: a zero bit is set, or a level is not 0 while absent. By its bits: LfCell::from drops the zero bits,
// and makes bytes where the fold over words counts in 32 bits.
#[tactic(auto, unfolding(crate::specs::BadWord::bad_word, cells::specs::Cell::cell_of))]
pub fn bad_word(word: u32) -> bool
    ensures { result ≡ bad_word word }
{
    (word % 4096 != 0) | (word / 262144 % 2 != 1) & (word / 4096 % 64 != 0)
}

// Whether one of the first words of a list is bad, by a fold, which has no branch and vectorises. Here and below over places, which
// are the list's by a clause: a Words lends its count and its words, and is no iterator.
fn any_bad_word<C: Words>(cells: C, count: usize) -> bool
    requires { count ≤ length (C.words cells) }
    ensures { result ≡ fold (λ any k. any || bad_cell (C.words cells) k) false (range_with_len 0 count) }
{
    (0..count).fold(false, |any, k| any | bad_word(cells.word_unchecked(k)))
}

// The first that is bad, place by place, as `position` tells it.
fn first_bad<C: Words>(cells: C, count: usize) -> Option<usize>
    requires { count ≤ length (C.words cells) }
    ensures none { result ≡ None → (k : ℕ) → k < count → bad_cell (C.words cells) k ≡ false }
    ensures some { (i : ℕ) → result ≡ Some i → (i < count) × (bad_cell (C.words cells) i ≡ true) × ((k : ℕ) → k < i → bad_cell (C.words cells) k ≡ false) }
{
    (0..count).position(|k| bad_word(cells.word_unchecked(k)))
}

// The first that is bad, if one is. Mostly none is, so a place is looked for only after a hit. Not by base::search::first_place: where the
// closure holds a value of a type parameter, the module that the check makes for the call's ghost value is refused.
pub fn first_bad_word_unchecked<C: Words>(cells: C, count: usize) -> Option<usize>
    requires { count ≤ length (C.words cells) }
    ensures { result ≡ first_found (bad_cell (C.words cells)) count }
{
    if any_bad_word(cells, count) {
        first_bad(cells, count)
    } else {
        None
    }
}
