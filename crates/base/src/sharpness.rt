// The sharpness of a frame.
ghost use Rattle.std.specs.Prelude.{◌≡◌, ◌≤◌, ◌<◌, MatchResult};
ghost use Rattle.base.specs.Fault.{number_of, place_of};

use crate::fault::Fault;

// 0 to 7: a value of this type is in range. A type of its own, as Level is.
#[derive(Clone, Copy)]
pub struct Sharpness {
    pub level: u8,
    pub ghost small: { level ≤ 7 },
}

impl TryFrom<u8> for Sharpness {
    type Error = Fault;

    ghost try_from_gives = { λ n r. MatchResult r (λ made. made.level ≡ n) (λ fault. (number_of fault ≡ 1) × (place_of fault ≡ 0) × (7 < n)) };

    fn try_from(level: u8) -> Result<Sharpness, Fault> {
        if level <= 7 {
            Ok(Sharpness { level })
        } else {
            Err(Fault::Sharpness)
        }
    }
}
