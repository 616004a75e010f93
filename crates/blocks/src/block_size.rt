// A block size that was tested.
ghost use Rattle.std.specs.Prelude.{◌≡◌, ◌≤◌, ◌<◌, MatchResult};
ghost use Rattle.base.specs.Fault.{number_of, place_of};

use base::fault::Fault;

// BLOCK_4X4, 0, to BLOCK_64X64, 12: a number, since it is a place in the standard's lists, and a type of its own, as Level
// is.
#[derive(Clone, Copy)]
pub struct BlockSize {
    pub number: u8,
    pub ghost known: { number ≤ 12 },
}

impl TryFrom<u8> for BlockSize {
    type Error = Fault;

    ghost try_from_gives = { λ n r. MatchResult r (λ made. made.number ≡ n) (λ fault. (number_of fault ≡ 8) × (place_of fault ≡ 0) × (12 < n)) };

    fn try_from(number: u8) -> Result<BlockSize, Fault> {
        if number <= 12 {
            Ok(BlockSize { number })
        } else {
            Err(Fault::Block(0))
        }
    }
}
