// The header of a run sheet.
#![tactic(auto)]

ghost use Rattle.std.specs.Prelude.{◌≡◌, ◌≤◌, ◌<◌, length};
ghost use Rattle.sheet_header.specs.SheetHeader.{depth_of, header_of, bad_header, numbers_of};

use geometry::pass_numbers::PassNumbers;

// MiCols and MiRows, subsampling, sharpness, depth (0 where the code is none), plane, pass, row base and column in cells, and
// the spare bits. Fields of its own and no PassNumbers within, since the definitions name the header's bits by them.
#[derive(Clone, Copy)]
pub struct SheetHeader {
    pub cols: usize,
    pub rows: usize,
    pub subx: u8,
    pub suby: u8,
    pub sharpness: u8,
    pub depth: u8,
    pub plane: u8,
    pub pass: u8,
    pub row: usize,
    pub col: usize,
    pub spare: u8,
}

// The header's numbers are those of a pass.
impl From<SheetHeader> for PassNumbers {
    ghost from_gives = { λ h n. n ≡ numbers_of h };

    fn from(h: SheetHeader) -> PassNumbers {
        PassNumbers {
            sharpness: h.sharpness,
            bit_depth: h.depth,
            sub_x: h.subx,
            sub_y: h.suby,
            mi_cols: h.cols,
            mi_rows: h.rows,
            mi_row: h.row,
            mi_col: h.col,
            plane: h.plane,
            pass: h.pass,
        }
    }
}

// 0 and no Option where the code is none: a pass refuses depth 0 as any other that is not supported.
fn depth_of(code: u8) -> u8
    requires { code ≤ 3 }
    ensures { result ≡ depth_of code }
{
    if code < 3 { 8 + 2 * code } else { 0 }
}

#[tactic(auto, unfolding(crate::specs::SheetHeader::header_of))]
pub fn header_of_unchecked(sheet: &[u8]) -> SheetHeader
    requires { 8 ≤ length sheet.now }
    ensures { result ≡ header_of sheet.now }
{
    let bits = u64::from_be_bytes([
        sheet[0], sheet[1], sheet[2], sheet[3], sheet[4], sheet[5], sheet[6], sheet[7],
    ]);
    SheetHeader {
        cols: (bits / 1125899906842624 % 16384) as usize,
        rows: (bits / 68719476736 % 16384) as usize,
        subx: (bits / 34359738368 % 2) as u8,
        suby: (bits / 17179869184 % 2) as u8,
        sharpness: (bits / 2147483648 % 8) as u8,
        depth: depth_of((bits / 536870912 % 4) as u8),
        plane: (bits / 134217728 % 4) as u8,
        pass: (bits / 67108864 % 2) as u8,
        row: 8 * (bits / 65536 % 1024) as usize,
        col: 8 * (bits / 64 % 1024) as usize,
        spare: (bits % 64) as u8,
    }
}

#[tactic(auto, unfolding(crate::specs::SheetHeader::bad_header))]
pub fn bad_header(h: SheetHeader) -> bool
    ensures { result ≡ bad_header h }
{
    (h.spare != 0) | (1024 < h.cols)
}
