// The loop filter process of VP9-S, in specs/: what all proofs lead to. There is no code here.
#![tactic(auto)]
