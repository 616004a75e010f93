// A record of a run sheet, laid out as tests/differential/src/vectors.rs says.
use crate::numbers::size16_at;
use sheet::run_sheet;

// A record has room for so many bytes of a sheet, from byte 4 on, and behind them of its text.
const SHEET: usize = 272;

const TEXT: usize = 1584;

// The buffer is lent full of this byte, which no text has: so a byte that is written is seen.
const LEFT: u8 = 1;

// Behind the text the buffer has what it had. A record that says more than there is room for is different.
pub(crate) fn is_equal(record: &[u8; 1860]) -> bool {
    let sheet = size16_at(record, 0);
    let text = size16_at(record, 2);
    if (SHEET < sheet) | (TEXT < text) {
        return false;
    }
    let mut out = [LEFT; 2048];
    let written = run_sheet(&record[4..4 + sheet], &mut out);
    (written == Some(text))
        & (out[..text] == record[276..276 + text])
        & out[text..].iter().all(|byte| *byte == LEFT)
}
