// Where the positions of a pass over a superblock lie.
#![tactic(auto)]

ghost use Rattle.std.specs.Prelude.{◌≡◌, ◌<◌};
ghost use Rattle.positions.specs.Positions.{Placed, luma_x, luma_y, plane_x, plane_y};

use geometry::{Luma, Pass, Plane, Superblock, shl_unchecked};

// A superblock of a plane that lies in its frame: a value of this type has numbers that are tested. Two types, since the definitions
// speak of a Superblock of any numbers.
#[derive(Clone, Copy)]
pub struct PlacedSuperblock {
    pub of: Superblock,
    pub ghost placed: { Placed of },
}

// Position i on an edge of a pass over a superblock.
#[derive(Clone, Copy)]
pub struct EdgePosition {
    pub s: PlacedSuperblock,
    pub pass: Pass,
    pub edge: usize,
    pub i: usize,
    pub ghost edge_small: { edge < 16 },
    pub ghost i_small: { i < 64 },
}

impl EdgePosition {
    // In luma samples. x and y are the standard's two names: one function over an axis would choose between them again, and be no plainer.
    // The bound is a clause: document 01 wants Luma as a tuple struct, and such a struct holds no fact.

    #[tactic(auto, unfolding(crate::specs::Positions::luma_x))]
    pub fn luma_x(self) -> Luma
        ensures { (result.0 ≡ luma_x self.s.of self.pass self.edge self.i) × (result.0 < 65792) }
    {
        let s = self.s.of;
        match self.pass {
            Pass::Vertical => Luma(s.col * 8 + self.edge * shl_unchecked(4, s.subx)),
            Pass::Horizontal => Luma(s.col * 8 + shl_unchecked(self.i, s.subx)),
        }
    }

    #[tactic(auto, unfolding(crate::specs::Positions::luma_y))]
    pub fn luma_y(self) -> Luma
        ensures { (result.0 ≡ luma_y self.s.of self.pass self.edge self.i) × (result.0 < 65792) }
    {
        let s = self.s.of;
        match self.pass {
            Pass::Vertical => Luma(s.row * 8 + shl_unchecked(self.i, s.suby)),
            Pass::Horizontal => Luma(s.row * 8 + self.edge * shl_unchecked(4, s.suby)),
        }
    }

    // In the plane, by the same two names.

    #[tactic(auto, unfolding(crate::specs::Positions::plane_x))]
    pub fn plane_x(self) -> Plane
        ensures { (result.0 ≡ plane_x self.s.of self.pass self.edge self.i) × (result.0 < 65792) }
    {
        self.luma_x().in_plane(self.s.of.subx)
    }

    #[tactic(auto, unfolding(crate::specs::Positions::plane_y))]
    pub fn plane_y(self) -> Plane
        ensures { (result.0 ≡ plane_y self.s.of self.pass self.edge self.i) × (result.0 < 65792) }
    {
        self.luma_y().in_plane(self.s.of.suby)
    }
}
