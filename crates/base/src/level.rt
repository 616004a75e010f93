// A filter level.
ghost use Rattle.std.specs.Prelude.{◌≡◌, ◌≤◌, ◌<◌, MatchResult};
ghost use Rattle.base.specs.Fault.{number_of, place_of};

use crate::fault::Fault;

// 0 to 63: a value of this type is in range. Levels, sharpnesses and block sizes have a type each: one type over
// a bound would need the fault of each bound besides.
#[derive(Clone, Copy)]
pub struct Level {
    pub number: u8,
    pub ghost small: { number ≤ 63 },
}

impl TryFrom<u8> for Level {
    type Error = Fault;

    ghost try_from_gives = { λ n r. MatchResult r (λ made. made.number ≡ n) (λ fault. (number_of fault ≡ 6) × (place_of fault ≡ 0) × (63 < n)) };

    fn try_from(number: u8) -> Result<Level, Fault> {
        if number <= 63 {
            Ok(Level { number })
        } else {
            Err(Fault::Level(0))
        }
    }
}
