// The run sheet, for C.
ghost use Rattle.std.specs.Prelude.{◌≡◌};
ghost use Rattle.c_sheet.specs.SheetEntry.{count_of};
ghost use Rattle.sheet.specs.SheetAnswers.{answer_of, text_of};

// Writes the runs that a pass would filter to the front of text, or "refused N place P" where it would be refused.
// sheet: a header of 8 bytes, then the words of the superblock row's cells, all with the most significant byte first.
// Header, from its highest bit on: mi_cols 14 bits, mi_rows 14, sub_x 1, sub_y 1, sharpness 3, bit_depth 2 (0, 1, 2 for
// 8, 10, 12), plane 2, pass 1, mi_row / 8 10, mi_col / 8 10, zeros 6. Refusal 17: zeros not 0, or mi_cols above 1024.
// Returns how many bytes were written, or 0 where text has fewer than 2048 bytes and is left as it was.
#[unsafe(no_mangle)]
pub extern "C" fn springspade_sheet(sheet: &[u8], text: &mut [u8]) -> usize
    ensures { (result ≡ count_of (answer_of sheet.now text.old)) × (text.new ≡ text_of sheet.now text.old) }
{
    c_sheet::springspade_sheet(sheet, text)
}
