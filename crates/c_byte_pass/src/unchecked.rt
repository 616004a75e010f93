// One pass over one superblock of a plane of bytes, by a caller that has made its tests.
ghost use Rattle.std.specs.Prelude.{◌≡◌};
ghost use Rattle.base.specs.Outcome.{accepted};
ghost use Rattle.base.specs.Width.{Byte};
ghost use Rattle.decided.specs.Decided.{setting_of};
ghost use Rattle.pass.specs.Pass.{superblock_loop_filter, superblock_loop_filter_cells};
ghost use Rattle.pass_edges.specs.PassEdges.{pass_of};

use geometry::pass_numbers::PassNumbers;
use superblock_pass::setting::setting_of_unchecked;
use superblock_pass::superblock_loop_filter_unchecked;
use window::WindowShape;

// As springspade_pass_bytes, without its tests and without an answer, and with cells as springspade_row packs them.
// Plain parameters, those of the C function that calls it.
pub fn springspade_pass_bytes_unchecked(
    samples: &mut [u8],
    cells: &[u32],
    width: usize,
    height: usize,
    stride: usize,
    y_origin: usize,
    sharpness: u8,
    sub_x: u8,
    sub_y: u8,
    mi_cols: usize,
    mi_rows: usize,
    mi_row: usize,
    mi_col: usize,
    plane: u8,
    pass: u8,
)
    requires { superblock_loop_filter_cells Byte (record { width = width; height = height; stride = stride; top = y_origin }) sharpness 8 sub_x sub_y mi_cols mi_rows mi_row mi_col plane pass cells.now samples.old ≡ accepted (superblock_loop_filter (record { width = width; height = height; stride = stride; top = y_origin }) (setting_of sharpness 8 sub_x sub_y mi_cols mi_rows mi_row mi_col plane cells.now) (pass_of pass) samples.old) }
    ensures { accepted samples.new ≡ superblock_loop_filter_cells Byte (record { width = width; height = height; stride = stride; top = y_origin }) sharpness 8 sub_x sub_y mi_cols mi_rows mi_row mi_col plane pass cells.now samples.old }
{
    let g = WindowShape {
        width,
        height,
        stride,
        top: y_origin,
    };
    let n = PassNumbers {
        sharpness,
        bit_depth: 8,
        sub_x,
        sub_y,
        mi_cols,
        mi_rows,
        mi_row,
        mi_col,
        plane,
        pass,
    };
    superblock_loop_filter_unchecked(samples, g, cells, setting_of_unchecked(n));
}
