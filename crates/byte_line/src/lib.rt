// The line filter over bytes, at depth 8: the 16 bytes are widened for the one line filter, and narrowed after it.
#![tactic(auto)]

ghost use Rattle.std.specs.Prelude.{◌≡◌, ◌++◌, ◌≤◌, length, take, drop};
ghost use Rattle.base.specs.Fault.{returned_of};
ghost use Rattle.base.specs.Outcome.{Answers};
ghost use Rattle.base.specs.Width.{Byte};
ghost use Rattle.line.specs.Line.{lent_line};
ghost use Rattle.line.specs.SampleFiltering.{sample_filtering};
ghost use Rattle.wide_filter.specs.Taps.{Within};

use base::depth::Depth;
use base::fault::Fault;
use line::line_strength::LineStrength;
use line::sample_filtering_unchecked;
use std::array;

fn widened(t: &[u8]) -> [u16; 16]
    requires { 16 ≤ length t.now }
    ensures { result ≡ take 16 t.now }
{
    array::from_fn(|k| u16::from(t[k]))
}

fn store_narrowed(t: &mut [u8], wide: &[u16; 16])
    requires { (16 ≤ length t.old) × (length wide.now ≡ 16) × Within 256 wide.now }
    ensures { t.new ≡ wide.now ++ drop 16 t.old }
{
    let narrow: [u8; 16] = array::from_fn(|k| wide[k] as u8);
    t[..16].copy_from_slice(&narrow);
}

// The first 16 bytes are the line, and those behind it stay as they are. The work without tests, for a caller that has made them. It
// takes the limits apart and no LineStrength, whose depth could be other than 8.
#[tactic(auto, unfolding(base::specs::Depth::supported))]
pub fn sample_filtering_bytes_unchecked(t: &mut [u8], size: u8, limit: u8, blimit: u8, thresh: u8)
    requires { 16 ≤ length t.old }
    ensures { t.new ≡ sample_filtering 8 size limit blimit thresh t.old }
{
    let mut wide = widened(t);
    let f = LineStrength {
        depth: Depth::EIGHT,
        limit,
        blimit,
        thresh,
    };
    sample_filtering_unchecked(&mut wide, size, f);
    store_narrowed(t, &wide);
}

// Takes any bytes and any numbers, since C calls it with such. Beside line::sample_filtering, whose work it does, since two refusals
// differ: a byte is in range at depth 8, so 13 is not looked for, and 7 is, of a list too short. A refusal leaves the bytes as they were.
pub fn sample_filtering_bytes(
    t: &mut [u8],
    depth: u8,
    size: u8,
    limit: u8,
    blimit: u8,
    thresh: u8,
) -> Result<(), Fault>
    ensures { Answers (lent_line Byte depth size limit blimit thresh t.old) (returned_of result) t.old t.new }
{
    if depth != 8 {
        return Err(Fault::Depth);
    }
    if t.len() < 16 {
        return Err(Fault::Short);
    }
    if 2 < size {
        return Err(Fault::FilterSize);
    }
    sample_filtering_bytes_unchecked(t, size, limit, blimit, thresh);
    Ok(())
}
