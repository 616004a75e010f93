// Where the taps of a line stand: p7 to p0, then q0 to q7.
pub const P7: usize = 0;

pub const P6: usize = 1;

pub const P5: usize = 2;

pub const P4: usize = 3;

pub const P3: usize = 4;

pub const P2: usize = 5;

pub const P1: usize = 6;

pub const P0: usize = 7;

pub const Q0: usize = 8;

pub const Q1: usize = 9;

pub const Q2: usize = 10;

pub const Q3: usize = 11;

pub const Q4: usize = 12;

pub const Q5: usize = 13;

pub const Q6: usize = 14;

pub const Q7: usize = 15;
