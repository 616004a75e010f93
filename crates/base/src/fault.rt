// Why an operation is refused.
ghost use Rattle.std.specs.Prelude.{◌≡◌};
ghost use Rattle.base.specs.Fault.{number_of, place_of};

use std::error::Error;
use std::fmt;

// A line of document 01's table of refusals, with its place where the line names one.
#[derive(Clone, Copy, Debug, PartialEq, Eq)]
pub enum Fault {
    Sharpness,
    Depth,
    Subsampling,
    FrameSize,
    Row,
    // A level above 63.
    Level(usize),
    Short,
    Block(usize),
    PlaneOrPass,
    Column,
    Cell(usize),
    Window,
    Sample(usize),
    // A position that is decided, and whose cell has no level.
    NoLevel(usize),
    FilterSize,
    Position,
    Header,
}

impl Fault {
    // Document 01's number.
    pub fn number(self) -> u32
        ensures { result ≡ number_of self }
    {
        match self {
            Fault::Sharpness => 1,
            Fault::Depth => 2,
            Fault::Subsampling => 3,
            Fault::FrameSize => 4,
            Fault::Row => 5,
            Fault::Level(_) => 6,
            Fault::Short => 7,
            Fault::Block(_) => 8,
            Fault::PlaneOrPass => 9,
            Fault::Column => 10,
            Fault::Cell(_) => 11,
            Fault::Window => 12,
            Fault::Sample(_) => 13,
            Fault::NoLevel(_) => 14,
            Fault::FilterSize => 15,
            Fault::Position => 16,
            Fault::Header => 17,
        }
    }

    // Its place. 0 and no Option where the line names none, as document 01 has it.
    pub fn place(self) -> usize
        ensures { result ≡ place_of self }
    {
        match self {
            Fault::Level(k)
            | Fault::Block(k)
            | Fault::Cell(k)
            | Fault::Sample(k)
            | Fault::NoLevel(k) => k,
            _ => 0,
        }
    }
}

// As the run sheet prints it.
impl fmt::Display for Fault {
    fn fmt<W: fmt::Write>(&self, f: &mut fmt::Formatter<W>) -> fmt::Result {
        write!(f, "refused {} place {}", self.number(), self.place())
    }
}

impl Error for Fault {}
