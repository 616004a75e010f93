// The row over a list of cell records.
ghost use Rattle.base.specs.Outcome.{Answers};
ghost use Rattle.c_border.specs.Border.{numbers_of};
ghost use Rattle.record_row.specs.RecordRow.{row_records};
ghost use Rattle.row.specs.Row.{mode_info};

use c_border::{Refusal, refusal_of};
use cell_records::CellRecord;
use record_row::row_records;
use row::mode_info::ModeInfoLists;
use row::numbers::RowNumbers;

// As springspade_row, into cell records in place of words, with the numbers in a record.
// The parameters are those of the C function that calls it.
pub fn springspade_row_records(
    mi_sizes: &[u8],
    tx_sizes: &[u8],
    skips: &[u8],
    ref_frames: &[i32],
    y_modes: &[u8],
    segment_ids: &[u8],
    levels: &[u8; 64],
    numbers: RowNumbers,
    records: &mut [CellRecord],
) -> Refusal
    ensures { Answers (row_records (mode_info mi_sizes.now tx_sizes.now skips.now ref_frames.now y_modes.now segment_ids.now) levels.now numbers records.old) (numbers_of result) records.old records.new }
{
    let lists = ModeInfoLists {
        mi_sizes,
        tx_sizes,
        skips,
        ref_frames,
        y_modes,
        segment_ids,
    };
    refusal_of(row_records(lists, levels, numbers, records))
}
