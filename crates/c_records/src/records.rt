// The pass over a list of cell records.
ghost use Rattle.base.specs.Outcome.{Answers};
ghost use Rattle.c_border.specs.Border.{numbers_of};
ghost use Rattle.plane_window.specs.PlaneWindow.{shape};
ghost use Rattle.record_pass.specs.RecordPass.{pass_records};

use c_border::{Refusal, refusal_of};
use cell_records::CellRecord;
use geometry::pass_numbers::PassNumbers;
use record_pass::pass_records;
use window::WindowShape;

// As springspade_pass, over cell records in place of words, with the numbers behind the window in a record.
// The parameters are those of the C function that calls it.
#[tactic(auto, using(c_border::specs::BorderLaws::crossed_as, pass::specs::PassLaws::pass_place))]
pub fn springspade_pass_records(
    samples: &mut [u16],
    records: &[CellRecord],
    width: usize,
    height: usize,
    stride: usize,
    y_origin: usize,
    numbers: PassNumbers,
) -> Refusal
    ensures { Answers (pass_records (shape width height stride y_origin) numbers records.now samples.old) (numbers_of result) samples.old samples.new }
{
    let g = WindowShape {
        width,
        height,
        stride,
        top: y_origin,
    };
    refusal_of(pass_records(samples, records, g, numbers))
}
