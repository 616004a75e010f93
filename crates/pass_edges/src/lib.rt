// The edges of a pass over a superblock: how many there are, and how many positions each has. Superblock and pass go together here and
// in the steps above, and are two parameters: the definitions take them apart, as the standard does, so that each contract would take a
// struct of both apart again.
#![tactic(auto)]

ghost use Rattle.std.specs.Prelude.{◌≡◌, ◌≤◌};
ghost use Rattle.geometry.specs.Coordinates.{shr};
ghost use Rattle.pass_edges.specs.PassEdges.{along_sub, edge_count, edge_len, pass_of};

use geometry::{Pass, Superblock, shr};

#[tactic(auto, unfolding(crate::specs::PassEdges::edge_count))]
pub fn edge_count(s: Superblock, pass: Pass) -> usize
    ensures { (result ≡ edge_count s pass) × (result ≤ 16) }
{
    match pass {
        Pass::Vertical => shr(16, s.subx),
        Pass::Horizontal => shr(16, s.suby),
    }
}

// n luma samples along an edge, in the samples of the plane.
pub fn along(s: Superblock, pass: Pass, n: usize) -> usize
    ensures { (result ≡ shr n (along_sub s pass)) × (result ≤ n) }
{
    match pass {
        Pass::Vertical => shr(n, s.suby),
        Pass::Horizontal => shr(n, s.subx),
    }
}

#[tactic(auto, unfolding(crate::specs::PassEdges::edge_len))]
pub fn edge_len(s: Superblock, pass: Pass) -> usize
    ensures { (result ≡ edge_len s pass) × (result ≤ 64) }
{
    along(s, pass, 64)
}

// Of a number that is tested: passes and planes arrive as numbers from C and from sheets, where any may stand. It is no TryFrom, since
// document 01 tests plane and pass as one, at a place among other tests.
pub fn pass_of(pass: u8) -> Pass
    ensures { result ≡ pass_of pass }
{
    if pass == 0 {
        Pass::Vertical
    } else {
        Pass::Horizontal
    }
}
