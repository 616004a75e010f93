// Document 01's run sheet: the runs of a pass, as text.
#![tactic(auto)]

ghost use Rattle.std.specs.Prelude.{◌≡◌, [], ◌-◌, ◌/◌, ◌≤◌, ◌<◌, length};
ghost use Rattle.base.specs.Fault.{number_of, place_of};
ghost use Rattle.geometry.specs.Frame.{cells_from};
ghost use Rattle.positions.specs.Positions.{Placed};
ghost use Rattle.text.specs.Puts.{Puts};
ghost use Rattle.sheet_header.specs.SheetHeaderLaws.{Header};
ghost use Rattle.sheet_header.specs.SheetHeader.{header_of};
ghost use Rattle.sheet.specs.Sheet.{sheet_setting, cells_of, cells_runs, printed, run_sheet};
ghost use Rattle.sheet.specs.SheetAnswers.{answer_of, text_of};
ghost use Rattle.sheet_lines.specs.SheetLines.{refusal_line};
ghost use Rattle.word_bytes.specs.WordBytes.{words_of};

mod runs;

use bad_words::first_bad_word_unchecked;
use base::depth::is_supported;
use base::fault::Fault;
use decided::superblock_of;
use faults::number_faults;
use geometry::cell_count_unchecked;
use geometry::pass_numbers::PassNumbers;
use keys::keys_unchecked;
use pass_edges::pass_of;
use positions::PlacedSuperblock;
use runs::print_runs;
use sheet_header::{SheetHeader, bad_header, header_of_unchecked};
use sheet_lines::{print_first_unchecked, print_refusal_unchecked};
use text::Text;

// A refusal is the whole text, printed where it is found: with a Result each function would promise besides that a refusal leaves
// the text empty. That it is empty at first is a clause here and below, since printing fills it.
#[tactic(auto, using(crate::specs::SheetLaws::number_small))]
fn print_fault(text: &mut Text<'_>, fault: Fault)
    requires { (text.old.at ≡ 0) × (place_of fault < 10000) }
    ensures { Puts (refusal_line (number_of fault) (place_of fault)) text.old text.new }
{
    print_refusal_unchecked(text, fault.number() as usize, fault.place());
}

// 11 and 14 are tested, and then the runs are printed.
#[tactic(auto, unfolding(crate::specs::Sheet::cells_runs), using(base::specs::First::place_found, base::specs::First::no_place, base::specs::First::first_is, crate::specs::SheetFits::cells_few, pass_edges::specs::PassEdgesLaws::edge_count_small))]
fn print_cells(text: &mut Text<'_>, h: SheetHeader, cells: &[u8])
    requires { (text.old.at ≡ 0) × Header h × Placed (sheet_setting h []).superblock × (cells_from h.row h.cols h.rows ≤ length cells.now / 4) × (h.cols ≤ 1024) }
    ensures { Puts (printed h (cells_runs h (words_of cells.now))) text.old text.new }
{
    let count = cell_count_unchecked(h.row, h.cols, h.rows);
    if let Some(k) = first_bad_word_unchecked(cells, count) {
        return print_fault(text, Fault::Cell(k));
    }
    let s = superblock_of(PassNumbers::from(h));
    let pass = pass_of(h.pass);
    let keys = keys_unchecked(cells, PlacedSuperblock { of: s }, pass, 0 < h.plane);
    if let Some(place) = keys.lacking {
        return print_fault(text, Fault::NoLevel(place));
    }
    print_first_unchecked(text, h);
    print_runs(text, s, pass, &keys);
}

// The numbers are tested: the words behind the header are the cells.
fn print_words(text: &mut Text<'_>, sheet: &[u8], h: SheetHeader)
    requires { (text.old.at ≡ 0) × (h ≡ header_of sheet.now) × Placed (sheet_setting h []).superblock × (cells_from h.row h.cols h.rows ≤ (length sheet.now - 8) / 4) × (h.cols ≤ 1024) × (8 ≤ length sheet.now) }
    ensures { Puts (printed h (cells_runs h (cells_of sheet.now))) text.old text.new }
{
    let count = cell_count_unchecked(h.row, h.cols, h.rows);
    print_cells(text, h, &sheet[8..8 + 4 * count]);
}

#[tactic(auto, unfolding(crate::specs::Sheet::run_sheet, crate::specs::Sheet::sheet_runs))]
fn print_sheet(text: &mut Text<'_>, sheet: &[u8])
    requires { text.old.at ≡ 0 }
    ensures { Puts (run_sheet sheet.now) text.old text.new }
{
    if sheet.len() < 8 {
        return print_fault(text, Fault::Short);
    }
    let h = header_of_unchecked(sheet);
    if bad_header(h) {
        return print_fault(text, Fault::Header);
    }
    let known = is_supported(h.depth);
    let tested = number_faults(PassNumbers::from(h), known, (sheet.len() - 8) / 4);
    match tested {
        Ok(()) => print_words(text, sheet, h),
        Err(fault) => print_fault(text, fault),
    }
}

// A count and no part of the buffer: C takes it so, and what stands in the whole buffer is promised.
//
// Takes any bytes. Returns how many bytes of text stand at the front of the buffer; a buffer of fewer than 2,048 bytes is left as it
// is.
#[tactic(auto, unfolding(crate::specs::SheetAnswers::answer_of, crate::specs::SheetAnswers::text_of))]
pub fn run_sheet(sheet: &[u8], out: &mut [u8]) -> Option<usize>
    ensures { (result ≡ answer_of sheet.now out.old) × (out.new ≡ text_of sheet.now out.old) }
{
    if 2047 < out.len() {
        let mut text = Text { out, at: 0 };
        print_sheet(&mut text, sheet);
        return Some(text.at);
    }
    None
}
