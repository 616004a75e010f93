// One pass over one superblock of a plane, for C: with its tests, and by a caller that has made them.
ghost use Rattle.std.specs.Prelude.{◌≡◌};
ghost use Rattle.base.specs.Outcome.{Answers, accepted};
ghost use Rattle.base.specs.Width.{U16};
ghost use Rattle.pass.specs.Pass.{superblock_loop_filter_cells, superblock_loop_filter};
ghost use Rattle.c_border.specs.Border.{numbers_of};
ghost use Rattle.decided.specs.Decided.{setting_of};
ghost use Rattle.pass_edges.specs.PassEdges.{pass_of};

use c_border::Refusal;

// Filters the superblock at mi_row, mi_col of a plane in place: vertical edges (pass 0) or horizontal ones (pass 1).
// samples: height rows of width samples, stride apart, the first being the plane's row y_origin; width and y_origin +
// height at most 65536, stride at most 131072. cells: as packed by springspade_row. mi_col is counted as mi_row.
// sub_x, sub_y: the frame's, also for plane 0. Refusals: 1 to 5 as springspade_row; 7 short cells; 9 plane above 2,
// pass above 1; 10 mi_col no multiple of 8 below mi_cols; 11 bad word (place: cell); 12 wrong window or short samples;
// 13 sample >= 1 << bit_depth (place: row * width + column); 14 cell without level (place: edge * 64 + position).
#[unsafe(no_mangle)]
pub extern "C" fn springspade_pass(
    samples: &mut [u16],
    cells: &[u32],
    width: usize,
    height: usize,
    stride: usize,
    y_origin: usize,
    sharpness: u8,
    bit_depth: u8,
    sub_x: u8,
    sub_y: u8,
    mi_cols: usize,
    mi_rows: usize,
    mi_row: usize,
    mi_col: usize,
    plane: u8,
    pass: u8,
) -> Refusal
    ensures { Answers (superblock_loop_filter_cells U16 (record { width = width; height = height; stride = stride; top = y_origin }) sharpness bit_depth sub_x sub_y mi_cols mi_rows mi_row mi_col plane pass cells.now samples.old) (numbers_of result) samples.old samples.new }
{
    c_pass::springspade_pass(
        samples, cells, width, height, stride, y_origin, sharpness, bit_depth, sub_x, sub_y,
        mi_cols, mi_rows, mi_row, mi_col, plane, pass,
    )
}

// As springspade_pass, without its tests and without an answer. The caller must hand over only what springspade_pass
// would accept; else memory outside samples and cells may be read or written.
#[unsafe(no_mangle)]
pub extern "C" fn springspade_pass_unchecked(
    samples: &mut [u16],
    cells: &[u32],
    width: usize,
    height: usize,
    stride: usize,
    y_origin: usize,
    sharpness: u8,
    bit_depth: u8,
    sub_x: u8,
    sub_y: u8,
    mi_cols: usize,
    mi_rows: usize,
    mi_row: usize,
    mi_col: usize,
    plane: u8,
    pass: u8,
)
    requires { superblock_loop_filter_cells U16 (record { width = width; height = height; stride = stride; top = y_origin }) sharpness bit_depth sub_x sub_y mi_cols mi_rows mi_row mi_col plane pass cells.now samples.old ≡ accepted (superblock_loop_filter (record { width = width; height = height; stride = stride; top = y_origin }) (setting_of sharpness bit_depth sub_x sub_y mi_cols mi_rows mi_row mi_col plane cells.now) (pass_of pass) samples.old) }
    ensures { accepted samples.new ≡ superblock_loop_filter_cells U16 (record { width = width; height = height; stride = stride; top = y_origin }) sharpness bit_depth sub_x sub_y mi_cols mi_rows mi_row mi_col plane pass cells.now samples.old }
{
    c_pass::unchecked::springspade_pass_unchecked(
        samples, cells, width, height, stride, y_origin, sharpness, bit_depth, sub_x, sub_y,
        mi_cols, mi_rows, mi_row, mi_col, plane, pass,
    );
}
