// A line by the names of its samples, and the parts of it that a filter can change.
#![tactic(auto)]

ghost use Rattle.std.specs.Prelude.{◌≡◌};
ghost use Rattle.lane.specs.LaneSamples.{samples_of};

pub mod taps;

use taps::*;

// A line by the names of its samples.
#[derive(Clone, Copy)]
pub struct Lane<T> {
    pub p7: T,
    pub p6: T,
    pub p5: T,
    pub p4: T,
    pub p3: T,
    pub p2: T,
    pub p1: T,
    pub p0: T,
    pub q0: T,
    pub q1: T,
    pub q2: T,
    pub q3: T,
    pub q4: T,
    pub q5: T,
    pub q6: T,
    pub q7: T,
}

// The samples that the narrow filter can change, and those that the wide filter of six can.
#[derive(Clone, Copy)]
pub struct Four<T> {
    pub p1: T,
    pub p0: T,
    pub q0: T,
    pub q1: T,
}

#[derive(Clone, Copy)]
pub struct Six<T> {
    pub p2: T,
    pub p1: T,
    pub p0: T,
    pub q0: T,
    pub q1: T,
    pub q2: T,
}

impl From<&[u16; 16]> for Lane<u16> {
    ghost from_gives = { λ t r. samples_of r ≡ t.now };

    fn from(t: &[u16; 16]) -> Self {
        Lane {
            p7: t[P7],
            p6: t[P6],
            p5: t[P5],
            p4: t[P4],
            p3: t[P3],
            p2: t[P2],
            p1: t[P1],
            p0: t[P0],
            q0: t[Q0],
            q1: t[Q1],
            q2: t[Q2],
            q3: t[Q3],
            q4: t[Q4],
            q5: t[Q5],
            q6: t[Q6],
            q7: t[Q7],
        }
    }
}

// Bytes widened.
impl From<Lane<u8>> for Lane<u16> {
    ghost from_gives = { λ a r. samples_of r ≡ samples_of a };

    fn from(a: Lane<u8>) -> Self {
        Lane {
            p7: u16::from(a.p7),
            p6: u16::from(a.p6),
            p5: u16::from(a.p5),
            p4: u16::from(a.p4),
            p3: u16::from(a.p3),
            p2: u16::from(a.p2),
            p1: u16::from(a.p1),
            p0: u16::from(a.p0),
            q0: u16::from(a.q0),
            q1: u16::from(a.q1),
            q2: u16::from(a.q2),
            q3: u16::from(a.q3),
            q4: u16::from(a.q4),
            q5: u16::from(a.q5),
            q6: u16::from(a.q6),
            q7: u16::from(a.q7),
        }
    }
}

impl<T: Copy> Lane<T> {
    pub fn four(self) -> Four<T>
        ensures { result ≡ record { p1 = self.p1; p0 = self.p0; q0 = self.q0; q1 = self.q1 } }
    {
        let Lane { p1, p0, q0, q1, .. } = self;
        Four { p1, p0, q0, q1 }
    }

    pub fn six(self) -> Six<T>
        ensures { result ≡ record { p2 = self.p2; p1 = self.p1; p0 = self.p0; q0 = self.q0; q1 = self.q1; q2 = self.q2 } }
    {
        Six {
            p2: self.p2,
            p1: self.p1,
            p0: self.p0,
            q0: self.q0,
            q1: self.q1,
            q2: self.q2,
        }
    }
}
