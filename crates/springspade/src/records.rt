// The pass over a window record and over cell records, and the row into cell records, for C.
ghost use Rattle.base.specs.Outcome.{Answers};
ghost use Rattle.c_border.specs.Border.{numbers_of};
ghost use Rattle.plane_window.specs.PlaneWindow.{shape, pass_over};
ghost use Rattle.record_pass.specs.RecordPass.{pass_records};
ghost use Rattle.record_row.specs.RecordRow.{row_records};
ghost use Rattle.row.specs.Row.{mode_info};

use c_border::Refusal;
use cell_records::CellRecord;
use geometry::pass_numbers::PassNumbers;
use row::numbers::RowNumbers;

// As springspade_pass, with the numbers behind the window in a record.
#[unsafe(no_mangle)]
pub extern "C" fn springspade_pass_window(
    samples: &mut [u16],
    cells: &[u32],
    width: usize,
    height: usize,
    stride: usize,
    y_origin: usize,
    numbers: PassNumbers,
) -> Refusal
    ensures { Answers (pass_over (shape width height stride y_origin) numbers cells.now samples.old) (numbers_of result) samples.old samples.new }
{
    c_records::springspade_pass_window(samples, cells, width, height, stride, y_origin, numbers)
}

// As springspade_pass, over cell records in place of words, with the numbers behind the window in a record.
// Refusal 11 is also for a record with a field too large (place: record). Needs somewhat over 256 KiB of stack.
#[unsafe(no_mangle)]
pub extern "C" fn springspade_pass_records(
    samples: &mut [u16],
    records: &[CellRecord],
    width: usize,
    height: usize,
    stride: usize,
    y_origin: usize,
    numbers: PassNumbers,
) -> Refusal
    ensures { Answers (pass_records (shape width height stride y_origin) numbers records.now samples.old) (numbers_of result) samples.old samples.new }
{
    c_records::records::springspade_pass_records(
        samples, records, width, height, stride, y_origin, numbers,
    )
}

// As springspade_row, into cell records in place of words, with the numbers in a record.
// Records behind the row's cells are left. Needs somewhat over 256 KiB of stack.
#[unsafe(no_mangle)]
pub extern "C" fn springspade_row_records(
    mi_sizes: &[u8],
    tx_sizes: &[u8],
    skips: &[u8],
    ref_frames: &[i32],
    y_modes: &[u8],
    segment_ids: &[u8],
    levels: &[u8; 64],
    numbers: RowNumbers,
    records: &mut [CellRecord],
) -> Refusal
    ensures { Answers (row_records (mode_info mi_sizes.now tx_sizes.now skips.now ref_frames.now y_modes.now segment_ids.now) levels.now numbers records.old) (numbers_of result) records.old records.new }
{
    c_records::rows::springspade_row_records(
        mi_sizes,
        tx_sizes,
        skips,
        ref_frames,
        y_modes,
        segment_ids,
        levels,
        numbers,
        records,
    )
}
