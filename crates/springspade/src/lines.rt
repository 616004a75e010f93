// The line over an array of 16, and over bytes, for C.
ghost use Rattle.base.specs.Outcome.{Answers};
ghost use Rattle.base.specs.Width.{U16, Byte};
ghost use Rattle.line.specs.Line.{line, lent_line};
ghost use Rattle.c_border.specs.Border.{numbers_of};

use c_border::Refusal;

// Filters 16 samples across an edge in place: p7 to p0, then q0 to q7. taps must point to 16 samples.
// bit_depth: 8, 10 or 12. filter_size: 0, 1 or 2; it changes at most 2, 3 or 7 samples on each side of the edge.
// limit, blimit, thresh: as springspade_strength gives them.
// Refusals: 2 bit_depth not 8, 10, 12; 13 sample >= 1 << bit_depth (place: its tap, 0 to 15); 15 filter_size above 2.
#[unsafe(no_mangle)]
pub extern "C" fn springspade_line(
    taps: &mut [u16; 16],
    bit_depth: u8,
    filter_size: u8,
    limit: u8,
    blimit: u8,
    thresh: u8,
) -> Refusal
    ensures { Answers (line U16 bit_depth filter_size limit blimit thresh taps.old) (numbers_of result) taps.old taps.new }
{
    c_line::springspade_line(taps, bit_depth, filter_size, limit, blimit, thresh)
}

// As springspade_line over bytes: the first 16 of taps, the bytes behind them are left. bit_depth: 8.
// Refusals: 2 bit_depth not 8; 7 fewer than 16 bytes; 15 filter_size above 2.
#[unsafe(no_mangle)]
pub extern "C" fn springspade_line_bytes(
    taps: &mut [u8],
    bit_depth: u8,
    filter_size: u8,
    limit: u8,
    blimit: u8,
    thresh: u8,
) -> Refusal
    ensures { Answers (lent_line Byte bit_depth filter_size limit blimit thresh taps.old) (numbers_of result) taps.old taps.new }
{
    c_line::springspade_line_bytes(taps, bit_depth, filter_size, limit, blimit, thresh)
}
