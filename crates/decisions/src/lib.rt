// What is decided of a position by the cells of the superblock row, in specs/. The crate `keys` decides by it, and there is no code
// here.
#![tactic(auto)]
