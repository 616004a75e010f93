// Document 01's Table M as one list and one computed result, in specs/. There is no code here.
#![tactic(auto)]
