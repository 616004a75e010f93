// The row's cells as records, in a list that the caller lends.
#![tactic(auto)]

ghost use Rattle.std.specs.Prelude.{◌≡◌, ◌≤◌, length};
ghost use Rattle.base.specs.Fault.{returned_of};
ghost use Rattle.base.specs.Outcome.{Answers};
ghost use Rattle.row.specs.RowLists.{lists_of};
ghost use Rattle.record_row.specs.RecordRow.{stored, row_records};

use base::fault::Fault;
use cell_records::{CellRecord, record_of};
use geometry::cell_count_unchecked;
use row::mode_info::ModeInfoLists;
use row::numbers::RowNumbers;
use row::row_cells;

// The first records become those of the words; what stands behind is left.
fn store_records_unchecked(words: &[u32], records: &mut [CellRecord])
    requires { length words.now ≤ length records.old }
    ensures { records.new ≡ stored words.now (length words.now) records.old }
{
    // By an index: of iter_mut under zip a proof knows nothing but the length.
    for (k, word) in words.iter().enumerate() {
        records[k] = record_of(*word);
    }
}

// Takes any lists and any numbers. A refusal leaves every record as it was. The words are a local of fixed size: there is no heap, and a
// row has at most 65,536 cells.
pub fn row_records(
    lists: ModeInfoLists,
    levels: &[u8; 64],
    numbers: RowNumbers,
    records: &mut [CellRecord],
) -> Result<(), Fault>
    ensures { Answers (row_records (lists_of lists.entry) levels.now numbers records.old) (returned_of result) records.old records.new }
{
    let mut words = [0; 65536];
    let lent = records.len().min(words.len());
    let cells = &mut words[..lent];
    row_cells(lists, levels, numbers, &mut *cells)?;
    let count = cell_count_unchecked(numbers.mi_row, numbers.mi_cols, numbers.mi_rows);
    store_records_unchecked(&cells[..count], records);
    Ok(())
}
