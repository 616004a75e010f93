// One pass over one superblock of a plane of bytes.
// The crate springspade exports its functions to C, and says what their arguments are: plain numbers and lists, as C lends them.
#![tactic(auto)]

ghost use Rattle.std.specs.Prelude.{◌≡◌};
ghost use Rattle.base.specs.Outcome.{Answers};
ghost use Rattle.base.specs.Width.{Byte};
ghost use Rattle.c_border.specs.Border.{numbers_of};
ghost use Rattle.pass.specs.Pass.{superblock_loop_filter_cells};
ghost use Rattle.word_bytes.specs.WordBytes.{words_of};

pub mod unchecked;

use c_border::{Refusal, refusal_of};
use geometry::pass_numbers::PassNumbers;
use superblock_pass::superblock_loop_filter_cells;
use window::WindowShape;

// As springspade_pass over bytes, the words of the cells too.
#[tactic(auto, using(c_border::specs::BorderLaws::crossed_as, pass::specs::PassLaws::pass_place))]
pub fn springspade_pass_bytes(
    samples: &mut [u8],
    cells: &[u8],
    width: usize,
    height: usize,
    stride: usize,
    y_origin: usize,
    sharpness: u8,
    bit_depth: u8,
    sub_x: u8,
    sub_y: u8,
    mi_cols: usize,
    mi_rows: usize,
    mi_row: usize,
    mi_col: usize,
    plane: u8,
    pass: u8,
) -> Refusal
    ensures { Answers (superblock_loop_filter_cells Byte (record { width = width; height = height; stride = stride; top = y_origin }) sharpness bit_depth sub_x sub_y mi_cols mi_rows mi_row mi_col plane pass (words_of cells.now) samples.old) (numbers_of result) samples.old samples.new }
{
    let g = WindowShape {
        width,
        height,
        stride,
        top: y_origin,
    };
    let n = PassNumbers {
        sharpness,
        bit_depth,
        sub_x,
        sub_y,
        mi_cols,
        mi_rows,
        mi_row,
        mi_col,
        plane,
        pass,
    };
    refusal_of(superblock_loop_filter_cells(samples, g, cells, n))
}
