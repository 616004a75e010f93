// How strongly a line is filtered.
ghost use Rattle.std.specs.Prelude.{◌≡◌};

use base::depth::Depth;
use strength::FilterStrength;

// The limits of 8.8.4, and the depth, to whose scale the line filter raises them. The size is beside it and no field: in lanes it is a
// constant or a function's name. No FilterStrength within, which has a level: a line's caller lends limits without one.
#[derive(Clone, Copy)]
pub struct LineStrength {
    pub depth: Depth,
    pub limit: u8,
    pub blimit: u8,
    pub thresh: u8,
}

impl LineStrength {
    pub fn new(depth: Depth, strength: FilterStrength) -> LineStrength
        ensures { (result.depth ≡ depth) × (result.limit ≡ strength.limit) × (result.blimit ≡ strength.blimit) × (result.thresh ≡ strength.thresh) }
    {
        LineStrength {
            depth,
            limit: strength.limit,
            blimit: strength.blimit,
            thresh: strength.thresh,
        }
    }
}
