// The window of a plane: its shape, and the tests of its shape and of its samples.
#![tactic(auto)]

ghost use Rattle.std.specs.Prelude.{◌≡◌, ◌+◌, ◌*◌, ◌≤◌, length};
ghost use Rattle.base.specs.First.{first_found};
ghost use Rattle.window.specs.Window.{bad_window, reaches, bad_sample};
ghost use Rattle.window.specs.WindowLaws.{Lent, uncountable};

use base::search::first_place;

// Rows of a plane's samples in a list that a caller lends: height rows of width samples, stride apart, the first of them at the
// plane's row top, which document 01 calls y origin. Samples and shape go as two parameters below PlaneWindow: each function that
// writes samples would else have to promise that it keeps the shape. A type of tested shapes would leave the samples' number to be
// asked: `Lent` asks for both at once, and `Lendable`, where no samples are taken, for a shape that fits some list.
#[derive(Clone, Copy)]
pub struct WindowShape {
    pub width: usize,
    pub height: usize,
    pub stride: usize,
    pub top: usize,
}

// Numbers from which the samples cannot be counted. They are refused before anything is computed from them.
fn uncountable(g: WindowShape) -> bool
    ensures { result ≡ uncountable g }
{
    (g.height == 0) | (65536 < g.width) | (65536 < g.height) | (65536 < g.top) | (131072 < g.stride)
}

// Document 01's test 12, of a window with so many samples lent.
#[tactic(auto, using(crate::specs::WindowLaws::bad_uncountable, crate::specs::WindowLaws::bad_countable))]
pub fn bad_window(g: WindowShape, lent: usize) -> bool
    ensures { result ≡ bad_window g lent }
{
    uncountable(g)
        || (g.width == 0)
            | (65536 < g.top + g.height)
            | (g.stride < g.width)
            | (lent < (g.height - 1) * g.stride + g.width)
}

// The first sample of a row that is not below the bound, if one is. The line filter's search is over an array of 16.
fn first_in_row(samples: &[u16], start: usize, width: usize, bound: u16) -> Option<usize>
    requires { start + width ≤ length samples.now }
    ensures { result ≡ first_found (reaches bound samples.now start) width }
{
    first_place(width, move |k| bound <= samples[start + k])
}

// Document 01's test 13: the first sample of the window, row by row, that is not below the bound, if one is.
pub fn first_bad_sample_unchecked(samples: &[u16], g: WindowShape, bound: u16) -> Option<usize>
    requires { Lent g (length samples.now) }
    ensures { result ≡ first_found (bad_sample g bound samples.now) (g.height * g.width) }
{
    // By find_map the proof does not close: its law tells a chain of calls, and no law makes the first place of that.
    for row in 0..g.height {
        if let Some(k) = first_in_row(samples, row * g.stride, g.width, bound) {
            return Some(row * g.width + k);
        }
    }
    None
}
