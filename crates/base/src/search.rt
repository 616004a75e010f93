// The first place at which a test holds.
ghost use Rattle.std.specs.Prelude.{◌≡◌, ℕ, Bool, ◌<◌};
ghost use Rattle.base.specs.First.{found, first, first_found};

// Whether the test holds at one of n places. The loop has no branch, which vectorises. The test is handed in and may be called only
// below n: that a fold or find of 0..n calls it nowhere else did not close. bad_words folds, since it writes its closure itself.
#[tactic(auto, using(crate::specs::First::found_more), unfolding(crate::specs::First::found))]
fn any<F: Fn(usize) -> bool>(n: usize, test: &F) -> bool
    ghost holds: { ℕ → Bool }
    requires may { (k : ℕ) → k < n → F.pre test.now k }
    requires told { (k : ℕ) (b : Bool) → k < n → F.post test.now k b → b ≡ holds k }
    ensures { result ≡ found holds n }
{
    let mut any = false;
    for k in 0..n {
        any = any | test(k);
    }
    any
}

// The first of n places at which it holds, if it does anywhere. Mostly it does not, so a place is looked for only after a hit.
pub fn first_place<F: Fn(usize) -> bool>(n: usize, test: F) -> Option<usize>
    ghost holds: { ℕ → Bool }
    requires may { (k : ℕ) → k < n → F.pre test k }
    requires told { (k : ℕ) (b : Bool) → k < n → F.post test k b → b ≡ holds k }
    ensures { result ≡ first_found holds n }
{
    if !any(n, &test) {
        return None;
    }
    for k in 0..n {
        if test(k) {
            return Some(k);
        }
    }
    None
}
