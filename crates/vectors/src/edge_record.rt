// A record of a position's facts, laid out as tests/differential/src/vectors.rs says.
use crate::numbers::{i32_at, size16_at, size32_at};
use base::fault::Fault;
use edges::numbers::EdgeNumbers;
use edges::{SuperblockFilterEdge, SuperblockFilterMi, superblock_filter_edge};

fn edge_answer(record: &[u8; 46]) -> Result<SuperblockFilterEdge, Fault> {
    let mi = SuperblockFilterMi {
        mi_size: record[3],
        tx_sz: record[4],
        skip: record[5],
        ref_frame: i32_at(record, 20),
    };
    let n = EdgeNumbers {
        pass: record[0],
        sub_x: record[1],
        sub_y: record[2],
        mi_row: size16_at(record, 8),
        mi_col: size16_at(record, 10),
        edge: size16_at(record, 12),
        i: size16_at(record, 14),
        mi_cols: size16_at(record, 16),
        mi_rows: size16_at(record, 18),
    };
    superblock_filter_edge(n, mi)
}

fn are_coordinates(record: &[u8; 46], found: SuperblockFilterEdge) -> bool {
    (found.x.0 == size32_at(record, 24))
        & (found.y.0 == size32_at(record, 28))
        & (found.loop_col == size32_at(record, 32))
        & (found.loop_row == size32_at(record, 36))
}

// The flags as numbers: a byte that is neither 0 nor 1 is different.
fn are_facts(record: &[u8; 46], found: SuperblockFilterEdge) -> bool {
    let flags = [
        u8::from(found.is_block_edge),
        u8::from(found.is_tx_edge),
        u8::from(found.is_32_edge),
        u8::from(found.on_screen),
        u8::from(found.apply_filter),
        found.size,
    ];
    are_coordinates(record, found) & (record[40..46] == flags[..])
}

// A refused position has no facts to compare. The place is 0 for every answer.
pub(crate) fn is_equal(record: &[u8; 46]) -> bool {
    let number = u32::from(record[6]);
    let answer = match edge_answer(record) {
        Ok(found) => (number == 0) & are_facts(record, found),
        Err(fault) => fault.number() == number,
    };
    answer & (record[7] == 0)
}
