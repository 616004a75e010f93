// Orders of work, in specs/: lists that hold the same members and give the same end. There is no code here.
#![tactic(auto)]
