// A sample of a plane, as the tests of a pass see it.
ghost use Rattle.std.specs.Prelude.{◌≡◌, true, List, ℕ, map, ◌*◌, ◌^◌, length};
ghost use Rattle.std.proofs.lemmas.List.{map-id};
ghost use Rattle.base.specs.First.{first_found};
ghost use Rattle.base.specs.Width.{admits};
ghost use Rattle.window.specs.Window.{bad_sample};
ghost use Rattle.window.specs.WindowLaws.{Lent};

use base::depth::{Depth, is_supported};
use border_position::sample::LentSample;
use window::{WindowShape, first_bad_sample_unchecked};

// That the width admits a depth is a clause of contracts: a type of such depths would be generic over a sample that it does not hold.
pub trait PlaneSample: LentSample {
    // Of a list of samples, the list of their numbers.
    ghost values: { List Self → List ℕ };

    // Whether samples of this width may have the depth.
    fn admits(depth: u8) -> bool
        ensures { result ≡ admits Self.width depth };

    // Document 01's test 13: the first sample of the window, row by row, that is out of range, if one is.
    fn first_bad_unchecked(samples: &[Self], g: WindowShape, depth: Depth) -> Option<usize>
        requires { Lent g (length samples.now) × (admits Self.width depth.bits ≡ true) }
        ensures { result ≡ first_found (bad_sample g (2 ^ depth.bits) (values samples.now)) (g.height * g.width) };

    ghost each: { (samples : List Self) → map Self.value samples ≡ values samples };
}

impl PlaneSample for u16 {
    ghost values = { λ samples. samples };

    fn admits(depth: u8) -> bool {
        is_supported(depth)
    }

    fn first_bad_unchecked(samples: &[u16], g: WindowShape, depth: Depth) -> Option<usize> {
        first_bad_sample_unchecked(samples, g, depth.bound())
    }

    ghost each = { map-id };
}

// A byte is in range at the depth that bytes have, so 13 is not looked for.
impl PlaneSample for u8 {
    ghost values = { λ samples. samples };

    fn admits(depth: u8) -> bool {
        depth == 8
    }

    #[tactic(auto, using(crate::specs::ByteFaults::bytes_good))]
    fn first_bad_unchecked(samples: &[u8], g: WindowShape, depth: Depth) -> Option<usize> {
        None
    }

    ghost each = { map-id };
}
