// A record of a line, laid out as tests/differential/src/vectors.rs says.
ghost use Rattle.std.specs.Prelude.{◌≤◌};

use crate::numbers::{is_answer, u16_at};
use line::sample_filtering;
use std::array;

// The 16 samples from the start on, two bytes each.
fn samples_at(record: &[u8; 72], start: usize) -> [u16; 16]
    requires { start ≤ 40 }
{
    array::from_fn(|k| u16_at(record, start + 2 * k))
}

// A refusal leaves the samples, so they are compared then too.
pub(crate) fn is_equal(record: &[u8; 72]) -> bool {
    let mut t = samples_at(record, 8);
    let answer = sample_filtering(
        &mut t, record[0], record[1], record[2], record[3], record[4],
    );
    is_answer(answer, record[5], usize::from(record[6])) & (t == samples_at(record, 40))
}
