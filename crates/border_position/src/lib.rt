// One position at the border of a window, whose samples are words or bytes: reads past the window clamp to it, and writes past it
// are dropped.
#![tactic(auto)]

ghost use Rattle.std.specs.Prelude.{◌≡◌, true, ◌<◌, length, get_or, map};
ghost use Rattle.base.specs.Width.{admits};
ghost use Rattle.line.specs.SampleFiltering.{sample_filtering};
ghost use Rattle.window.specs.Stencil.{gather, put, scatter, applied};
ghost use Rattle.window.specs.Window.{tap_read, tap_stored, tap_written, stencil};
ghost use Rattle.window.specs.WindowLaws.{Lent};
ghost use Rattle.border_position.specs.Holds.{Holds, HoldsLine};

pub mod sample;

use line::line_strength::LineStrength;
use line::sample_filtering_unchecked;
use sample::LentSample;
use std::array;
use tap_places::position::Position;
use window::WindowShape;

fn read_tap<S: LentSample>(samples: &[S], g: WindowShape, p: Position, k: usize) -> u16
    requires { Lent g (length samples.now) × (k < 16) }
    ensures { (result ≡ get_or (map S.value samples.now) (tap_read g p.pass p.x p.y k) 0) × Holds S.width result }
{
    samples[p.read_place_unchecked(g, k)].word()
}

fn load<S: LentSample>(samples: &[S], g: WindowShape, p: Position) -> [u16; 16]
    requires { Lent g (length samples.now) }
    ensures { (result ≡ gather (tap_read g p.pass p.x p.y) 0 16 (map S.value samples.now)) × HoldsLine S.width result }
{
    array::from_fn(move |k| read_tap(samples, g, p, k))
}

fn write_tap<S: LentSample>(samples: &mut [S], g: WindowShape, p: Position, k: usize, word: u16)
    requires { Lent g (length samples.old) × (k < 16) × Holds S.width word }
    ensures { map S.value samples.new ≡ put (tap_stored g p.pass p.x p.y k) (tap_written g p.pass p.x p.y k) word (map S.value samples.old) }
{
    if p.is_stored_unchecked(g, k) {
        samples[p.written_place_unchecked(g, k)] = S::of_word(word);
    }
}

#[tactic(auto, using(window::specs::StencilLaws::scatter_none))]
fn store<S: LentSample>(samples: &mut [S], g: WindowShape, p: Position, t: &[u16; 16])
    requires { Lent g (length samples.old) × HoldsLine S.width t.now }
    ensures { map S.value samples.new ≡ scatter (tap_stored g p.pass p.x p.y) (tap_written g p.pass p.x p.y) (λ k. get_or t.now k 0) 16 (map S.value samples.old) }
{
    // With indices: the tap's number tells whether its word is stored, and where.
    for (k, word) in t.iter().enumerate() {
        write_tap(samples, g, p, k, *word);
    }
}

// The work without tests, for a caller that has made them.
#[tactic(auto, using(crate::specs::Holds::line_held))]
pub fn filter_position_unchecked<S: LentSample>(
    samples: &mut [S],
    g: WindowShape,
    p: Position,
    size: u8,
    f: LineStrength,
)
    requires { Lent g (length samples.old) × (admits S.width f.depth.bits ≡ true) }
    ensures { map S.value samples.new ≡ applied (stencil g p.pass p.x p.y true (sample_filtering f.depth.bits size f.limit f.blimit f.thresh)) (map S.value samples.old) }
{
    let mut t = load(samples, g, p);
    sample_filtering_unchecked(&mut t, size, f);
    store(samples, g, p, &t);
}
