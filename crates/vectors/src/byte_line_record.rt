// A record of a line over bytes, laid out as tests/differential/src/vectors.rs says. Beside the record of words: here
// the record's own bytes are lent.
use crate::numbers::is_answer;
use byte_line::sample_filtering_bytes;

// A record has room for so many bytes before, from byte 8 on, and behind them as many after.
const ROOM: usize = 24;

// A refusal leaves the bytes, and an accepted line those behind the 16: all are compared. A record that says more than there is
// room for is different.
pub(crate) fn is_equal(record: &[u8; 56]) -> bool {
    let mut found = *record;
    let lent = usize::from(record[7]);
    let end = 8 + lent.min(ROOM);
    let answer = sample_filtering_bytes(
        &mut found[8..end],
        record[0],
        record[1],
        record[2],
        record[3],
        record[4],
    );
    (lent <= ROOM)
        & is_answer(answer, record[5], usize::from(record[6]))
        & (found[8..32] == record[32..56])
}
