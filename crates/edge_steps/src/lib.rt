// The single steps at a position, a file for each file of the Rust. Superblock, pass, x and y are parameters of their own, as the
// standard names them, and no EdgePosition, which would work out x and y anew in each step.
#![tactic(auto)]

pub mod filter_size;
pub mod superblock_filter;
