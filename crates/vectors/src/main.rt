// Replays the fixed test vectors of data/ and prints a line for each file.
#![tactic(auto)]

mod byte_line_record;
mod byte_pass_record;
mod edge_record;
mod levels_record;
mod line_record;
mod numbers;
mod pass_record;
mod replay;
mod row_record;
mod sheet_record;
mod strength_record;

use replay::replay;
use std::io;
use std::rt::Files;

// The same rows and passes, through the forms of the library that take records.
fn replay_record_forms(rt: &(impl Files + Print)) -> io::Result<()> {
    replay(
        rt,
        "rows.bin",
        ", cell records",
        row_record::is_equal_in_records,
    )?;
    replay(
        rt,
        "passes.bin",
        ", window record",
        pass_record::is_equal_in_window,
    )?;
    replay(
        rt,
        "passes.bin",
        ", cell records",
        pass_record::is_equal_in_records,
    )
}

fn main(rt: HostRuntime) -> io::Result<()> {
    replay(&rt, "levels.bin", "", levels_record::is_equal)?;
    replay(&rt, "frames.bin", "", levels_record::is_equal)?;
    replay(&rt, "strength.bin", "", strength_record::is_equal)?;
    replay(&rt, "lines.bin", "", line_record::is_equal)?;
    replay(&rt, "byte_lines.bin", "", byte_line_record::is_equal)?;
    replay(&rt, "rows.bin", "", row_record::is_equal)?;
    replay(&rt, "edges.bin", "", edge_record::is_equal)?;
    replay(&rt, "passes.bin", "", pass_record::is_equal)?;
    replay(&rt, "byte_passes.bin", "", byte_pass_record::is_equal)?;
    replay(&rt, "sheets.bin", "", sheet_record::is_equal)?;
    replay_record_forms(&rt)
}
