// A record of a row, laid out as tests/differential/src/vectors.rs says.
ghost use Rattle.std.specs.Prelude.{◌≤◌, ◌<◌, ◌+◌};

use crate::numbers::{i32_at, is_answer, size16_at, u32_at};
use cell_records::{CellRecord, record_of, word_of};
use record_row::row_records;
use row::mode_info::ModeInfoLists;
use row::numbers::RowNumbers;
use row::row_cells;
use std::array;

// Each list of a record has room for so many entries.
const ENTRIES: usize = 24;

// The lists' lengths. A record that says more than there is room for is different.
fn are_lengths(record: &[u8; 492]) -> bool {
    record[10..17]
        .iter()
        .all(|length| usize::from(*length) <= ENTRIES)
}

// At most the room, also in a record that says more.
fn length_at(record: &[u8; 492], at: usize) -> usize
    requires { at < 492 }
    ensures { result ≤ 24 }
{
    usize::from(record[at]).min(ENTRIES)
}

// The list whose bytes begin at the start, and whose length stands at a place of its own.
fn list_at(record: &[u8; 492], start: usize, at: usize) -> &[u8]
    requires { (start + 24 ≤ 492) × (at < 492) }
{
    &record[start..start + length_at(record, at)]
}

fn references_of(record: &[u8; 492]) -> [i32; ENTRIES] {
    array::from_fn(|k| i32_at(record, 156 + 4 * k))
}

fn lists_of<'a>(record: &'a [u8; 492], references: &'a [i32; ENTRIES]) -> ModeInfoLists<'a> {
    ModeInfoLists {
        mi_sizes: list_at(record, 84, 10),
        tx_sizes: list_at(record, 108, 11),
        skips: list_at(record, 132, 12),
        ref_frames: &references[..length_at(record, 13)],
        y_modes: list_at(record, 252, 14),
        segment_ids: list_at(record, 276, 15),
    }
}

fn levels_of(record: &[u8; 492]) -> [u8; 64] {
    array::from_fn(|k| record[20 + k])
}

fn numbers_of(record: &[u8; 492]) -> RowNumbers {
    RowNumbers {
        sharpness: record[0],
        bit_depth: record[1],
        sub_x: record[2],
        sub_y: record[3],
        mi_cols: size16_at(record, 4),
        mi_rows: size16_at(record, 6),
        mi_row: size16_at(record, 8),
    }
}

fn words_at(record: &[u8; 492], start: usize) -> [u32; ENTRIES]
    requires { start + 96 ≤ 492 }
{
    array::from_fn(|k| u32_at(record, start + 4 * k))
}

// A refusal leaves the words, and so does an accepted row those behind its cells: all are compared.
pub(crate) fn is_equal(record: &[u8; 492]) -> bool {
    let references = references_of(record);
    let p = numbers_of(record);
    let mut cells = words_at(record, 300);
    let lent = length_at(record, 16);
    let answer = row_cells(
        lists_of(record, &references),
        &levels_of(record),
        p,
        &mut cells[..lent],
    );
    are_lengths(record)
        & is_answer(answer, record[17], usize::from(record[18]))
        & (cells == words_at(record, 396))
}

// A word before may have zero bits set, which no record holds: they are not compared. The row sets none.
fn are_records(record: &[u8; 492], records: &[CellRecord; ENTRIES]) -> bool {
    let after = words_at(record, 396);
    records
        .iter()
        .zip(&after)
        .all(|(made, word)| word_of(*made) == *word / 4096 * 4096)
}

// As is_equal, with cell records in place of words, which are compared in another way.
pub(crate) fn is_equal_in_records(record: &[u8; 492]) -> bool {
    let references = references_of(record);
    let mut records = words_at(record, 300).map(record_of);
    let lent = length_at(record, 16);
    let answer = row_records(
        lists_of(record, &references),
        &levels_of(record),
        numbers_of(record),
        &mut records[..lent],
    );
    are_lengths(record)
        & is_answer(answer, record[17], usize::from(record[18]))
        & are_records(record, &records)
}
