// Block sizes, and what the loop filter reads of a cell's mode info.
#![tactic(auto)]

pub mod block_size;
pub mod mode_info;
pub mod partition;
