// One pass over one superblock of a plane of bytes, for C: with its tests, and by a caller that has made them.
ghost use Rattle.std.specs.Prelude.{◌≡◌};
ghost use Rattle.base.specs.Outcome.{Answers, accepted};
ghost use Rattle.base.specs.Width.{Byte};
ghost use Rattle.c_border.specs.Border.{numbers_of};
ghost use Rattle.pass.specs.Pass.{superblock_loop_filter_cells, superblock_loop_filter};
ghost use Rattle.word_bytes.specs.WordBytes.{words_of};
ghost use Rattle.decided.specs.Decided.{setting_of};
ghost use Rattle.pass_edges.specs.PassEdges.{pass_of};

use c_border::Refusal;

// As springspade_pass over bytes. bit_depth: 8. cells: the words of springspade_row as bytes, four to a cell, the most
// significant first. Refusals: those of springspade_pass; 2 bit_depth not 8; 7 fewer than four bytes for each cell of
// the row; never 13.
#[unsafe(no_mangle)]
pub extern "C" fn springspade_pass_bytes(
    samples: &mut [u8],
    cells: &[u8],
    width: usize,
    height: usize,
    stride: usize,
    y_origin: usize,
    sharpness: u8,
    bit_depth: u8,
    sub_x: u8,
    sub_y: u8,
    mi_cols: usize,
    mi_rows: usize,
    mi_row: usize,
    mi_col: usize,
    plane: u8,
    pass: u8,
) -> Refusal
    ensures { Answers (superblock_loop_filter_cells Byte (record { width = width; height = height; stride = stride; top = y_origin }) sharpness bit_depth sub_x sub_y mi_cols mi_rows mi_row mi_col plane pass (words_of cells.now) samples.old) (numbers_of result) samples.old samples.new }
{
    c_byte_pass::springspade_pass_bytes(
        samples, cells, width, height, stride, y_origin, sharpness, bit_depth, sub_x, sub_y,
        mi_cols, mi_rows, mi_row, mi_col, plane, pass,
    )
}

// As springspade_pass_bytes, without its tests and without an answer, and with cells as springspade_row packs them. The
// caller must hand over only what springspade_pass_bytes would accept with these words as bytes; else memory outside
// samples and cells may be read or written.
#[unsafe(no_mangle)]
pub extern "C" fn springspade_pass_bytes_unchecked(
    samples: &mut [u8],
    cells: &[u32],
    width: usize,
    height: usize,
    stride: usize,
    y_origin: usize,
    sharpness: u8,
    sub_x: u8,
    sub_y: u8,
    mi_cols: usize,
    mi_rows: usize,
    mi_row: usize,
    mi_col: usize,
    plane: u8,
    pass: u8,
)
    requires { superblock_loop_filter_cells Byte (record { width = width; height = height; stride = stride; top = y_origin }) sharpness 8 sub_x sub_y mi_cols mi_rows mi_row mi_col plane pass cells.now samples.old ≡ accepted (superblock_loop_filter (record { width = width; height = height; stride = stride; top = y_origin }) (setting_of sharpness 8 sub_x sub_y mi_cols mi_rows mi_row mi_col plane cells.now) (pass_of pass) samples.old) }
    ensures { accepted samples.new ≡ superblock_loop_filter_cells Byte (record { width = width; height = height; stride = stride; top = y_origin }) sharpness 8 sub_x sub_y mi_cols mi_rows mi_row mi_col plane pass cells.now samples.old }
{
    c_byte_pass::unchecked::springspade_pass_bytes_unchecked(
        samples, cells, width, height, stride, y_origin, sharpness, sub_x, sub_y, mi_cols, mi_rows,
        mi_row, mi_col, plane, pass,
    );
}
