// Prints, of built-in input, a level table, strengths, a line before and after the filter, the cells of a row, the facts of some of
// its edges, its superblock before and after a pass, and its run sheet.
#![tactic(auto)]

ghost use Rattle.std.specs.Prelude.{◌<◌};

mod case_s;
mod output;
mod position;
mod sheet_step;
mod step;
mod superblock;

use case_s::print_row;
use frame_header::{LoopFilterParams, SegmentationParams};
use level_lookup::LvlLookup;
use levels::loop_filter::level_table;
use output::{print_numbers, refused};
use position::print_edges;
use sheet_step::print_sheet;
use std::io;
use step::print_line;
use strength::strength_for_level;
use superblock::print_superblock;

// Level 40, with deltas enabled and none in the header.
fn header() -> LoopFilterParams {
    LoopFilterParams {
        level: 40,
        sharpness: 0,
        delta_enabled: true,
        delta_update: false,
        ref_deltas: [None; 4],
        mode_deltas: [None; 2],
    }
}

// Segment 1 has the absolute level 20.
fn segments() -> SegmentationParams {
    let mut features = [None; 32];
    features[5] = Some(20);
    SegmentationParams {
        enabled: true,
        abs_or_delta_update: true,
        features,
    }
}

fn print_segment(rt: &impl Print, table: &LvlLookup, segment: usize) -> io::Result<()>
    requires { segment < 8 }
{
    print!(rt; "segment {segment}:")?;
    print_numbers(rt, &table.levels[8 * segment..8 * segment + 8])
}

fn print_strength(rt: &impl Print, lvl: u8, sharpness: u8) -> io::Result<()> {
    let found = strength_for_level(lvl, sharpness).map_err(refused)?;
    println!(rt;
        "level {lvl} sharpness {sharpness}: limit {}, blimit {}, thresh {}",
        found.limit, found.blimit, found.thresh
    )
}

fn main(rt: HostRuntime) -> io::Result<()> {
    let table = level_table(header(), segments()).map_err(refused)?;
    println!(rt; "levels of intra, last, golden, altref, each for mode types 0 and 1")?;
    print_segment(&rt, &table, 0)?;
    print_segment(&rt, &table, 1)?;
    print_strength(&rt, table.levels[0], 0)?;
    print_strength(&rt, table.levels[0], 5)?;
    print_strength(&rt, table.levels[8], 0)?;
    print_line(&rt)?;
    print_row(&rt)?;
    print_edges(&rt)?;
    print_superblock(&rt)?;
    print_sheet(&rt)
}
