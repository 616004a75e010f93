// The line over an array of 16, and over bytes.
// The crate springspade exports its functions to C, and says what their arguments are.
#![tactic(auto)]

ghost use Rattle.base.specs.Outcome.{Answers};
ghost use Rattle.base.specs.Width.{Byte, U16};
ghost use Rattle.line.specs.Line.{line, lent_line};
ghost use Rattle.c_border.specs.Border.{numbers_of};

use c_border::{Refusal, refusal_of};

// Filters 16 samples across an edge in place.
pub fn springspade_line(
    taps: &mut [u16; 16],
    bit_depth: u8,
    filter_size: u8,
    limit: u8,
    blimit: u8,
    thresh: u8,
) -> Refusal
    ensures { Answers (line U16 bit_depth filter_size limit blimit thresh taps.old) (numbers_of result) taps.old taps.new }
{
    refusal_of(line::sample_filtering(taps, bit_depth, filter_size, limit, blimit, thresh))
}

// As springspade_line over bytes: the first 16 of taps.
#[tactic(auto, using(c_border::specs::BorderLaws::crossed_as, line::specs::LineWidths::lent_place))]
pub fn springspade_line_bytes(
    taps: &mut [u8],
    bit_depth: u8,
    filter_size: u8,
    limit: u8,
    blimit: u8,
    thresh: u8,
) -> Refusal
    ensures { Answers (lent_line Byte bit_depth filter_size limit blimit thresh taps.old) (numbers_of result) taps.old taps.new }
{
    refusal_of(byte_line::sample_filtering_bytes(
        taps,
        bit_depth,
        filter_size,
        limit,
        blimit,
        thresh,
    ))
}
