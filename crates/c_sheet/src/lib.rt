// The run sheet: the runs of a pass, as text.
// The crate springspade exports its functions to C, and says what their arguments are. C has no Option: no room is a count of 0, which no
// text has.
#![tactic(auto)]

ghost use Rattle.std.specs.Prelude.{◌≡◌};
ghost use Rattle.c_sheet.specs.SheetEntry.{count_of};
ghost use Rattle.sheet.specs.SheetAnswers.{answer_of, text_of};

use sheet::run_sheet;

// Writes the runs that a pass would filter to the front of text, or how the pass would be refused. A sheet and its
// text are laid out as the run sheet's definitions say.
pub fn springspade_sheet(sheet: &[u8], text: &mut [u8]) -> usize
    ensures { (result ≡ count_of (answer_of sheet.now text.old)) × (text.new ≡ text_of sheet.now text.old) }
{
    run_sheet(sheet, text).unwrap_or(0)
}
