// The tie of the pass to the standard, in specs/. There is no code here.
#![tactic(auto)]
