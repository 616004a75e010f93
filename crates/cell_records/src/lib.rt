// A cell as a record of plain numbers, and the word that it packs to.
#![tactic(auto)]

ghost use Rattle.std.specs.Prelude.{◌≡◌};
ghost use Rattle.cell_records.specs.CellRecord.{too_large, word_of, record_in, record_of};

use cells::{LfCell, pack_unchecked};

// Bytes and no Option or enum, since it crosses to C.
//
// A cell as LfCell, with a byte for each field.
#[repr(C)]
#[derive(Clone, Copy)]
pub struct CellRecord {
    // Logarithm of the block's width in units of 8 luma samples, for a plane that is not subsampled across: 0 to 3.
    pub width0: u8,
    // The same for a plane that is.
    pub width1: u8,
    // Logarithm of the block's height, for a plane that is not subsampled down: 0 to 3.
    pub height0: u8,
    // The same for a plane that is.
    pub height1: u8,
    // The transform in plane 0: 0 (4x4) to 3 (32x32).
    pub tx: u8,
    // The transform in planes 1 and 2.
    pub uvtx: u8,
    // 0 or 1. 1 where the block is inter and has no coefficients: its inner transform edges are not filtered.
    pub skipped: u8,
    // 0 or 1: whether the cell has a level.
    pub present: u8,
    // 0 to 63; 0 where there is none.
    pub level: u8,
}

// Whether a field is too large for its bits of the word.
fn too_large(c: CellRecord) -> bool
    ensures { result ≡ too_large c }
{
    (3 < c.width0)
        | (3 < c.width1)
        | (3 < c.height0)
        | (3 < c.height1)
        | (3 < c.tx)
        | (3 < c.uvtx)
        | (1 < c.skipped)
        | (1 < c.present)
        | (63 < c.level)
}

// Of any record, by name: a From for u32 would not say that the number is a cell's word. One with a field that is too large gives a
// word that document 01's test 11 refuses.
#[tactic(auto, unfolding(crate::specs::CellRecord::word_of))]
pub fn word_of(c: CellRecord) -> u32
    ensures { result ≡ word_of c }
{
    if too_large(c) {
        return 1;
    }
    let cell = LfCell {
        width0: c.width0,
        width1: c.width1,
        height0: c.height0,
        height1: c.height1,
        tx: c.tx,
        uvtx: c.uvtx,
        skipped: c.skipped == 1,
        present: c.present == 1,
        level: c.level,
    };
    pack_unchecked(cell)
}

impl From<LfCell> for CellRecord {
    ghost from_gives = { λ c r. r ≡ record_in c };

    fn from(cell: LfCell) -> Self {
        CellRecord {
            width0: cell.width0,
            width1: cell.width1,
            height0: cell.height0,
            height1: cell.height1,
            tx: cell.tx,
            uvtx: cell.uvtx,
            skipped: u8::from(cell.skipped),
            present: u8::from(cell.present),
            level: cell.level,
        }
    }
}

// The record of any word, by name as well; what stands in its zero bits is left out.
pub fn record_of(word: u32) -> CellRecord
    ensures { result ≡ record_of word }
{
    CellRecord::from(LfCell::from(word))
}
