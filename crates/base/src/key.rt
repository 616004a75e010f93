// A filter size and a level in one byte.
ghost use Rattle.std.specs.Prelude.{◌≡◌, ◌/◌, ◌%◌, ◌≤◌, ◌<◌};

use crate::level::Level;

// 64 times the size, 0 to 2, and the level: a value of this type is of such a size and level.
#[derive(Clone, Copy)]
pub struct Key {
    pub number: u8,
    pub ghost small: { number < 192 },
}

impl Key {
    pub fn size(self) -> u8
        ensures { (result ≡ self.number / 64) × (result ≤ 2) }
    {
        self.number / 64
    }

    pub fn level(self) -> Level
        ensures { result.number ≡ self.number % 64 }
    {
        Level {
            number: self.number % 64,
        }
    }
}
