// A record of a pass, laid out as tests/differential/src/vectors.rs says.
ghost use Rattle.std.specs.Prelude.{◌≤◌};

use crate::numbers::{is_answer, size16_at, size32_at, u16_at, u32_at};
use base::fault::Fault;
use cell_records::{CellRecord, record_of};
use geometry::pass_numbers::PassNumbers;
use plane_window::pass_window;
use record_pass::pass_records;
use std::array;
use superblock_pass::superblock_loop_filter_cells;
use window::WindowShape;

// A record has room for so many cells and samples.
const CELLS: usize = 32;

const SAMPLES: usize = 640;

fn cells_of(record: &[u8; 2728]) -> [u32; CELLS] {
    array::from_fn(|k| u32_at(record, 40 + 4 * k))
}

// At most the room, also in a record that says more.
fn lent_cells(record: &[u8; 2728]) -> usize
    ensures { result ≤ 32 }
{
    usize::from(record[7]).min(CELLS)
}

fn samples_at(record: &[u8; 2728], start: usize) -> [u16; SAMPLES]
    requires { start ≤ 1448 }
{
    array::from_fn(|k| u16_at(record, start + 2 * k))
}

// The same in a record of a pass over bytes.

pub(crate) fn window_of<const N: usize>(record: &[u8; N]) -> WindowShape
    requires { 40 ≤ N }
{
    WindowShape {
        width: size32_at(record, 16),
        height: size32_at(record, 20),
        stride: size32_at(record, 24),
        top: size32_at(record, 28),
    }
}

pub(crate) fn numbers_of<const N: usize>(record: &[u8; N]) -> PassNumbers
    requires { 40 ≤ N }
{
    PassNumbers {
        sharpness: record[0],
        bit_depth: record[1],
        sub_x: record[2],
        sub_y: record[3],
        mi_cols: size16_at(record, 8),
        mi_rows: size16_at(record, 10),
        mi_row: size16_at(record, 12),
        mi_col: size16_at(record, 14),
        plane: record[4],
        pass: record[5],
    }
}

// Whether a form of the pass does to the record's samples what it says. A refusal leaves the samples, and an accepted pass those
// that are not lent: all are compared. A record that says more than there is room for is different.
fn is_equal_by<F: FnOnce(&mut [u16]) -> Result<(), Fault>>(record: &[u8; 2728], pass: F) -> bool
    requires { F.IsAlwaysCallable pass }
{
    let mut samples = samples_at(record, 168);
    let lent = size32_at(record, 32);
    let end = lent.min(SAMPLES);
    let answer = pass(&mut samples[..end]);
    (usize::from(record[7]) <= CELLS)
        & (lent <= SAMPLES)
        & is_answer(answer, record[6], size32_at(record, 36))
        & (samples == samples_at(record, 1448))
}

pub(crate) fn is_equal(record: &[u8; 2728]) -> bool {
    let cells = cells_of(record);
    let lent = &cells[..lent_cells(record)];
    is_equal_by(record, |samples| {
        superblock_loop_filter_cells(samples, window_of(record), lent, numbers_of(record))
    })
}

pub(crate) fn is_equal_in_window(record: &[u8; 2728]) -> bool {
    let cells = cells_of(record);
    let lent = &cells[..lent_cells(record)];
    is_equal_by(record, |samples| {
        pass_window(
            plane_window::window_of(samples, window_of(record)),
            lent,
            numbers_of(record),
        )
    })
}

// No record holds a word's zero bits. For a word that 11 refuses because one is set stands a record with
// a field too large, which 11 refuses at the same place. Any other word has a record of its own.
fn cell_record(word: u32) -> CellRecord {
    let own = record_of(word);
    if word % 4096 == 0 {
        own
    } else {
        CellRecord { width0: 4, ..own }
    }
}

pub(crate) fn is_equal_in_records(record: &[u8; 2728]) -> bool {
    let records = cells_of(record).map(cell_record);
    let lent = &records[..lent_cells(record)];
    is_equal_by(record, |samples| {
        pass_records(samples, lent, window_of(record), numbers_of(record))
    })
}
