// The pass over a window record.
// The crate springspade exports its functions to C, and says what their arguments are: numbers, lists and records, as C lends them.
#![tactic(auto)]

ghost use Rattle.base.specs.Outcome.{Answers};
ghost use Rattle.c_border.specs.Border.{numbers_of};
ghost use Rattle.plane_window.specs.PlaneWindow.{shape, pass_over};

pub mod records;
pub mod rows;

use c_border::{Refusal, refusal_of};
use geometry::pass_numbers::PassNumbers;
use plane_window::{pass_window, window_of};
use window::WindowShape;

// As springspade_pass, with the numbers behind the window in a record.
#[tactic(auto, using(c_border::specs::BorderLaws::crossed_as, pass::specs::PassLaws::pass_place))]
pub fn springspade_pass_window(
    samples: &mut [u16],
    cells: &[u32],
    width: usize,
    height: usize,
    stride: usize,
    y_origin: usize,
    numbers: PassNumbers,
) -> Refusal
    ensures { Answers (pass_over (shape width height stride y_origin) numbers cells.now samples.old) (numbers_of result) samples.old samples.new }
{
    let g = WindowShape {
        width,
        height,
        stride,
        top: y_origin,
    };
    refusal_of(pass_window(window_of(samples, g), cells, numbers))
}
