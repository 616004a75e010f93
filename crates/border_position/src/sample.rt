// A sample that a caller lends, as a word or as a byte.
ghost use Rattle.std.specs.Prelude.{◌≡◌, ℕ};
ghost use Rattle.base.specs.Width.{Width, Byte, U16};
ghost use Rattle.border_position.specs.Holds.{Holds};

// What the line filter reads and writes, which works on words. `line::masks::Sample` is beside it for lanes, which keep their width: there
// a sample has the differences that masks take, and no word. That a depth goes with this width is a clause, `admits`, in the contracts
// above: a type of depths for each width would be generic over a sample that it does not hold.
pub trait LentSample: Copy {
    ghost width: { Width };

    ghost value: { Self → ℕ };

    fn word(self) -> u16
        ensures { (result ≡ value self) × Holds width result };

    fn of_word(word: u16) -> Self
        requires { Holds width word }
        ensures { value result ≡ word };
}

impl LentSample for u16 {
    ghost width = { U16 };

    ghost value = { λ x. x };

    fn word(self) -> u16 {
        self
    }

    fn of_word(word: u16) -> u16 {
        word
    }
}

impl LentSample for u8 {
    ghost width = { Byte };

    ghost value = { λ x. x };

    fn word(self) -> u16 {
        u16::from(self)
    }

    fn of_word(word: u16) -> u8 {
        word as u8
    }
}
