// A record of a pass over bytes, laid out as tests/differential/src/vectors.rs says. Beside the record of words: here
// the record's own bytes are lent.
use crate::numbers::{is_answer, size32_at};
use crate::pass_record::{numbers_of, window_of};
use base::fault::Fault;
use superblock_pass::superblock_loop_filter_cells;

// A record has room for so many bytes of cells, from byte 40 on, and of samples before, from byte 168 on. Behind those
// are as many after.
const CELL_BYTES: usize = 128;

const SAMPLES: usize = 640;

fn pass_answer(record: &[u8; 1448], samples: &mut [u8]) -> Result<(), Fault> {
    let cells = usize::from(record[7]).min(CELL_BYTES);
    superblock_loop_filter_cells(
        samples,
        window_of(record),
        &record[40..40 + cells],
        numbers_of(record),
    )
}

fn are_after(found: &[u8; 1448], record: &[u8; 1448]) -> bool {
    found[168..808] == record[808..1448]
}

// A refusal leaves the samples, and an accepted pass those that are not lent: all are compared. A record that says more than there
// is room for is different.
pub(crate) fn is_equal(record: &[u8; 1448]) -> bool {
    let mut found = *record;
    let lent = size32_at(record, 32);
    let end = 168 + lent.min(SAMPLES);
    let answer = pass_answer(record, &mut found[168..end]);
    (usize::from(record[7]) <= CELL_BYTES)
        & (lent <= SAMPLES)
        & is_answer(answer, record[6], size32_at(record, 36))
        & are_after(&found, record)
}
