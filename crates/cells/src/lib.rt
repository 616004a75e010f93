// A cell packed into a word.
#![tactic(auto)]

ghost use Rattle.std.specs.Prelude.{◌≡◌};
ghost use Rattle.cells.specs.Cell.{packed, cell_of, Fields};

// A flag and a level and no Option, since C reads the record as it stands.
//
// What the pass reads of a cell.
#[repr(C)]
#[derive(Clone, Copy)]
pub struct LfCell {
    // Logarithm of the block's width in units of 8 luma samples, for a plane that is not subsampled across: 0 to 3.
    pub width0: u8,
    // The same for a plane that is.
    pub width1: u8,
    // Logarithm of the block's height, for a plane that is not subsampled down: 0 to 3.
    pub height0: u8,
    // The same for a plane that is.
    pub height1: u8,
    // The transform in plane 0: 0 (4x4) to 3 (32x32).
    pub tx: u8,
    // The transform in planes 1 and 2.
    pub uvtx: u8,
    // Whether the block is inter and has no coefficients: its inner transform edges are not filtered.
    pub skipped: bool,
    // Whether the cell has a level.
    pub present: bool,
    // 0 to 63; 0 where there is none.
    pub level: u8,
}

// The fields of any word, also of one that no block makes.
impl From<u32> for LfCell {
    ghost from_gives = { λ word c. c ≡ cell_of word };

    #[tactic(auto, unfolding(crate::specs::Cell::cell_of))]
    fn from(word: u32) -> Self {
        LfCell {
            width0: (word / 1073741824 % 4) as u8,
            width1: (word / 268435456 % 4) as u8,
            height0: (word / 67108864 % 4) as u8,
            height1: (word / 16777216 % 4) as u8,
            tx: (word / 4194304 % 4) as u8,
            uvtx: (word / 1048576 % 4) as u8,
            skipped: word / 524288 % 2 == 1,
            present: word / 262144 % 2 == 1,
            level: (word / 4096 % 64) as u8,
        }
    }
}

// The word of a cell whose fields fit their bits.
#[tactic(auto, unfolding(crate::specs::Cell::packed), using(crate::specs::CellLaws::flag_bit, crate::specs::CellLaws::bit_small))]
pub fn pack_unchecked(c: LfCell) -> u32
    requires { Fields c }
    ensures { result ≡ packed c }
{
    let width = u32::from(c.width0) * 4 + u32::from(c.width1);
    let shape = (width * 4 + u32::from(c.height0)) * 4 + u32::from(c.height1);
    let transforms = (shape * 4 + u32::from(c.tx)) * 4 + u32::from(c.uvtx);
    let flags = (transforms * 2 + u32::from(c.skipped)) * 2 + u32::from(c.present);
    (flags * 64 + u32::from(c.level)) * 4096
}
