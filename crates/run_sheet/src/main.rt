// Reads a run sheet on standard input and prints the runs of its pass.
#![tactic(auto)]

ghost use Rattle.std.specs.Prelude.{OnOk};
ghost use Rattle.std.specs.Io.KnownBytes.{Appends};
ghost use Rattle.sheet.specs.Sheet.{run_sheet};

use anyhow::{Context, Result};
use reading::read_full;
use sheet::run_sheet;
use std::io;
use std::io::{Read, Write};

fn print_sheet<W: Write>(out: &mut W, sheet: &[u8]) -> Result<()>
    ensures { OnOk result (Appends (W.contents out.old) (W.contents out.new) (run_sheet sheet.now)) }
{
    let mut text = [0u8; 2048];
    let Some(count) = run_sheet(sheet, &mut text) else {
        return Ok(());
    };
    out.write_all(&text[..count])
        .context("the output could not be written")
}

// Reads until the input ends or the largest sheet is read: what lies behind it counts for nothing.
fn read_and_print<R: Read, W: Write>(input: &mut R, out: &mut W) -> Result<()> {
    // The largest sheet has 8 bytes and 8,192 words.
    let mut sheet = [0u8; 32776];
    let count = read_full(input, &mut sheet).context("the sheet could not be read")?;
    print_sheet(out, &sheet[..count])
}

fn main(rt: HostRuntime) -> Result<()> {
    read_and_print(&mut rt.stdin(), &mut io::writer(&rt))
}
