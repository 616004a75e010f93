// The level table of a frame (8.8.1).
#![tactic(auto)]

pub mod loop_filter;
