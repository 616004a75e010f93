// Text in a lent buffer.
#![tactic(auto)]

ghost use Rattle.std.specs.Prelude.{◌∷◌, [], ◌+◌, ◌≤◌, ◌<◌, length};
ghost use Rattle.text.specs.Text.{decimal};

use itoa::Buffer;

// A buffer, and the place behind what was written. Bytes past the buffer's end are dropped, so a caller tests once that there is room.
// No String, since there is no heap, and no io::Write of a slice, which answers an error where room lacks. How far `at` may be is a clause
// of each, since each moves it.
#[derive(Drop)]
pub struct Text<'a> {
    pub out: &'a mut [u8],
    pub at: usize,
}

impl<'a> Text<'a> {
    ghost use Rattle.text.specs.Puts.{Puts};

    #[tactic(auto, unfolding(crate::specs::Text::written))]
    pub fn put_byte_unchecked(&mut self, byte: u8)
        requires { self.old.at < 4294967296 }
        ensures { Puts (byte ∷ []) self.old self.new }
    {
        if self.at < self.out.len() {
            self.out[self.at] = byte;
        }
        self.at += 1;
    }

    pub fn put_bytes_unchecked(&mut self, text: &[u8])
        requires { self.old.at + length text.now ≤ 4294967296 }
        ensures { Puts text.now self.old self.new }
    {
        for byte in text {
            self.put_byte_unchecked(*byte);
        }
    }

    // A number in decimal, without leading zeros.
    #[tactic(auto, using(crate::specs::TextLaws::decimal_std))]
    pub fn put_decimal_unchecked(&mut self, n: usize)
        requires { self.old.at < 4294967232 }
        ensures { Puts (decimal n) self.old self.new }
    {
        let mut digits = Buffer::new();
        self.put_bytes_unchecked(digits.format(n).as_bytes());
    }
}
