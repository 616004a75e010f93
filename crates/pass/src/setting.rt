// What a pass is given beside its window and its cells.
use base::depth::Depth;
use base::sharpness::Sharpness;
use geometry::Pass;
use positions::PlacedSuperblock;

// Of numbers that are tested. The superblock has the subsampling that holds in the plane.
#[derive(Clone, Copy)]
pub struct PassSetting {
    pub s: PlacedSuperblock,
    pub pass: Pass,
    // Whether the plane is one of chroma.
    pub chroma: bool,
    pub sharpness: Sharpness,
    pub depth: Depth,
}
