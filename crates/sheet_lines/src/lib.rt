// The lines of a run sheet. Not by Display: what write! promises of its bytes holds where it answers Ok, and nothing promises that it
// does.
#![tactic(auto)]

ghost use Rattle.std.specs.Prelude.{◌∷◌, [], ◌++◌, ◌+◌, ◌≤◌, ◌<◌, length};
ghost use Rattle.text.specs.Puts.{Puts};
ghost use Rattle.sheet_header.specs.SheetHeaderLaws.{Header};
ghost use Rattle.sheet_lines.specs.SheetLines.{ended_by, named, first_line, run_line, refusal_line};

use decided::SmallRun;
use sheet_header::SheetHeader;
use text::Text;

// A number, and the byte behind it.
fn put_number(text: &mut Text<'_>, n: usize, byte: u8)
    requires { (text.old.at ≤ 65536) × (n < 100) }
    ensures { Puts (ended_by n byte) text.old text.new × (text.new.at ≤ text.old.at + 3) }
{
    text.put_decimal_unchecked(n);
    text.put_byte_unchecked(byte);
}

// A word, and the number behind it.
fn put_named(text: &mut Text<'_>, word: &[u8], n: usize)
    requires { (text.old.at ≤ 65536) × (length word.now ≤ 8) × (n < 10000) }
    ensures { Puts (named word.now n) text.old text.new × (text.new.at ≤ text.old.at + 12) }
{
    text.put_bytes_unchecked(word);
    text.put_decimal_unchecked(n);
}

// pass, plane, row base, column.
pub fn print_first_unchecked(text: &mut Text<'_>, h: SheetHeader)
    requires { Header h × (text.old.at ≤ 32768) }
    ensures { Puts (first_line h) text.old text.new × (text.new.at ≤ text.old.at + 49) }
{
    put_named(text, b"pass ", usize::from(h.pass));
    put_named(text, b" plane ", usize::from(h.plane));
    put_named(text, b" row ", h.row);
    put_named(text, b" col ", h.col);
    text.put_byte_unchecked(b'\n');
}

// edge, first position, positions, size, level.
pub fn print_run_unchecked(text: &mut Text<'_>, a: SmallRun)
    requires { text.old.at ≤ 32768 }
    ensures { Puts (run_line a.of) text.old text.new × (text.new.at ≤ text.old.at + 15) }
{
    let a = a.of;
    put_number(text, a.edge, b' ');
    put_number(text, a.first, b' ');
    put_number(text, a.count, b' ');
    put_number(text, usize::from(a.size), b' ');
    put_number(text, usize::from(a.level), b'\n');
}

// Of a refusal: its number and its place.
pub fn print_refusal_unchecked(text: &mut Text<'_>, number: usize, place: usize)
    requires { (text.old.at ≤ 32768) × (number < 100) × (place < 10000) }
    ensures { Puts (refusal_line number place) text.old text.new }
{
    put_named(text, b"refused ", number);
    put_named(text, b" place ", place);
    text.put_byte_unchecked(b'\n');
}
