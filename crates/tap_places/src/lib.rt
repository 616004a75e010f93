// Where the taps of a position, and the positions of a run, lie in the list that a window is lent in. Nothing here knows
// how wide a sample is.
#![tactic(auto)]

mod place;
pub mod position;
pub mod run_start;
pub mod tap_run;
