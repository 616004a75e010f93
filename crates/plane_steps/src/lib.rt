// Steps of a window and of the standard's plane, in specs/: a position does the same to both. There is no code here.
#![tactic(auto)]
