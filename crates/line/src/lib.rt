// The line filter (8.8.5): 16 samples across an edge, p7 to p0 and then q0 to q7.
#![tactic(auto)]

ghost use Rattle.std.specs.Prelude.{◌≡◌};
ghost use Rattle.base.specs.Fault.{returned_of};
ghost use Rattle.base.specs.First.{first_found};
ghost use Rattle.base.specs.Outcome.{Answers};
ghost use Rattle.base.specs.Width.{U16};
ghost use Rattle.line.specs.SampleFiltering.{sample_filtering};
ghost use Rattle.line.specs.Line.{reaches, line};

pub mod line_strength;
pub mod masks;
mod narrow;
mod stored;

use base::depth::Depth;
use base::fault::Fault;
use base::search::first_place;
use lane::Lane;
use line_strength::LineStrength;
use masks::{filter_mask_unchecked, flat_mask, flat_mask2, hev_mask};
use narrow::narrow_filter;
use stored::{store_fourteen, store_six};
use wide_filter::{wide_fourteen, wide_six};

// The work without the tests, for a caller that has made them. The size is a number, the standard's filterSize: 8.8.3
// computes it, and keys pack it.
#[tactic(auto, unfolding(crate::specs::SampleFiltering::sample_filtering))]
pub fn sample_filtering_unchecked(t: &mut [u16; 16], size: u8, f: LineStrength)
    ensures { t.new ≡ sample_filtering f.depth.bits size f.limit f.blimit f.thresh t.old }
{
    let a = Lane::from(&*t);
    let depth = f.depth;
    if !filter_mask_unchecked(a, depth.scaled(f.limit), depth.scaled(f.blimit)) {
        return;
    }
    let one = depth.scaled(1);
    if (size == 0) | !flat_mask(a, one) {
        let hev = hev_mask(a, depth.scaled(f.thresh));
        narrow_filter(t, hev, depth);
        return;
    }
    if (size == 1) | !flat_mask2(a, one) {
        store_six(t, wide_six(a));
        return;
    }
    store_fourteen(t, wide_fourteen(a));
}

// The first tap whose sample is not below the bound.
fn first_reaching(t: &[u16; 16], bound: u16) -> Option<usize>
    ensures { result ≡ first_found (reaches bound t.now) 16 }
{
    first_place(16, |k| bound <= t[k])
}

// Takes any samples and any numbers, since C calls it with such: a LineStrength is made of what was tested. A refusal leaves the
// samples as they were.
#[tactic(auto, unfolding(crate::specs::Line::line, base::specs::Depth::supported), using(base::specs::First::place_found, base::specs::First::no_place))]
pub fn sample_filtering(
    t: &mut [u16; 16],
    depth: u8,
    size: u8,
    limit: u8,
    blimit: u8,
    thresh: u8,
) -> Result<(), Fault>
    ensures { Answers (line U16 depth size limit blimit thresh t.old) (returned_of result) t.old t.new }
{
    let depth = Depth::try_from(depth)?;
    if let Some(k) = first_reaching(t, depth.bound()) {
        return Err(Fault::Sample(k));
    }
    if 2 < size {
        return Err(Fault::FilterSize);
    }
    let f = LineStrength {
        depth,
        limit,
        blimit,
        thresh,
    };
    sample_filtering_unchecked(t, size, f);
    Ok(())
}
