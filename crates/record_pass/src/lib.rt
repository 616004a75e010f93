// The pass of the loop filter over a lent list of cell records.
#![tactic(auto)]

ghost use Rattle.std.specs.Prelude.{◌≡◌, ◌≤◌, length};
ghost use Rattle.base.specs.Filled.{filled};
ghost use Rattle.base.specs.Outcome.{Answers};
ghost use Rattle.base.specs.Fault.{returned_of};
ghost use Rattle.record_pass.specs.RecordPass.{record_word, pass_records};

use base::fault::Fault;
use cell_records::{CellRecord, word_of};
use geometry::pass_numbers::PassNumbers;
use superblock_pass::superblock_loop_filter_cells;
use window::WindowShape;

// Each record's word is stored at the record's place.
fn fill_unchecked(records: &[CellRecord], words: &mut [u32])
    requires { length records.now ≤ length words.old }
    ensures { words.new ≡ filled (record_word records.now) 0 (length records.now) words.old }
{
    // By an index: of iter_mut under zip a proof knows nothing but the length.
    for (i, record) in records.iter().enumerate() {
        words[i] = word_of(*record);
    }
}

// The pass over records. The words are a local, so that no lent memory but the samples changes; a row has at most 65,536 cells.
pub fn pass_records(
    samples: &mut [u16],
    records: &[CellRecord],
    g: WindowShape,
    n: PassNumbers,
) -> Result<(), Fault>
    ensures { Answers (pass_records g n records.now samples.old) (returned_of result) samples.old samples.new }
{
    let mut words = [0u32; 65536];
    let lent = records.len().min(words.len());
    fill_unchecked(&records[..lent], &mut words);
    superblock_loop_filter_cells(samples, g, &words[..lent], n)
}
