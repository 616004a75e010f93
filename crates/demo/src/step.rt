// Prints a built-in line, a step at the edge, before the filter and after it at each size.
use crate::output::{print_numbers, refused};
use line::sample_filtering;
use std::io;
use strength::strength_for_level;

// p7 to p0, then q0 to q7.
const STEP: [u16; 16] = [
    100, 100, 100, 100, 100, 100, 100, 100, 104, 104, 104, 104, 104, 104, 104, 104,
];

pub(crate) fn print_line(rt: &impl Print) -> io::Result<()> {
    let found = strength_for_level(32, 0).map_err(refused)?;
    println!(rt; "line from p7 to q7, depth 8, level 32 sharpness 0")?;
    print!(rt; "before:")?;
    print_numbers(rt, &STEP)?;
    // The number of the size is what is asked for and printed: no list is walked.
    for size in 0..3 {
        let mut t = STEP;
        sample_filtering(&mut t, 8, size, found.limit, found.blimit, found.thresh).map_err(
            refused,
        )?;
        print!(rt; "size {size}:")?;
        print_numbers(rt, &t)?;
    }
    Ok(())
}
