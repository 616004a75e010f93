// A record of a level's strength, laid out as tests/differential/src/vectors.rs says.
use strength::{FilterStrength, strength_for_level};

pub(crate) fn is_equal(record: &[u8; 6]) -> bool {
    let number = u32::from(record[2]);
    match strength_for_level(record[1], record[0]) {
        Ok(found) => {
            let expected = FilterStrength {
                lvl: record[1],
                limit: record[3],
                blimit: record[4],
                thresh: record[5],
            };
            (number == 0) & (found == expected)
        }
        Err(fault) => fault.number() == number,
    }
}
