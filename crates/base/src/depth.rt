// The bit depths of VP9.
ghost use Rattle.std.specs.Prelude.{◌≡◌, ◌^◌, ◌<◌, true, false, MatchResult};
ghost use Rattle.base.specs.Depth.{supported, scaled};
ghost use Rattle.base.specs.Fault.{number_of, place_of};

use crate::fault::Fault;

// The bit depths of VP9.
#[tactic(auto, unfolding(crate::specs::Depth::supported))]
pub fn is_supported(depth: u8) -> bool
    ensures { result ≡ supported depth }
{
    (depth == 8) | (depth == 10) | (depth == 12)
}

// One of them: a value of this type is a depth that is supported.
#[derive(Clone, Copy)]
pub struct Depth {
    pub bits: u8,
    pub ghost known: { supported bits ≡ true },
}

impl TryFrom<u8> for Depth {
    type Error = Fault;

    ghost try_from_gives = { λ n r. MatchResult r (λ made. made.bits ≡ n) (λ fault. (number_of fault ≡ 2) × (place_of fault ≡ 0) × (supported n ≡ false)) };

    fn try_from(bits: u8) -> Result<Depth, Fault> {
        if is_supported(bits) {
            Ok(Depth { bits })
        } else {
            Err(Fault::Depth)
        }
    }
}

impl Depth {
    // That of samples that are bytes.
    pub const EIGHT: Depth = Depth { bits: 8 };

    // Its samples are below.
    #[tactic(auto, unfolding(crate::specs::Depth::supported))]
    pub fn bound(self) -> u16
        ensures { result ≡ 2 ^ self.bits }
    {
        1 << self.bits
    }

    // v << (depth - 8): a number at the scale of the depth.
    #[tactic(auto, using(crate::specs::Depth::depth_scaled), unfolding(crate::specs::Depth::supported))]
    pub fn scaled(self, v: u8) -> u16
        ensures { (result ≡ scaled self.bits v) × (result < 4096) }
    {
        u16::from(v) << (self.bits - 8)
    }
}
