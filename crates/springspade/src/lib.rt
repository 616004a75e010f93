// The functions that C calls. A static library exports the functions of its own crate alone, and none that is generic: so each function of
// the crates c_* stands here again, with its contract, and all have arguments that C lays out: numbers, lists and
// records of numbers. The work is in those crates, which are small: a
// wrong program of one is tried without the others.
#![tactic(auto)]

mod byte_passes;
mod edge_facts;
mod level_tables;
mod lines;
mod passes;
mod records;
mod rows;
mod sheets;
mod strengths;
