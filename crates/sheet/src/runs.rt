// The runs of a pass, printed as they come.
ghost use Rattle.std.specs.Prelude.{◌≤◌};
ghost use Rattle.decided.specs.KeyRuns.{key_runs};
ghost use Rattle.text.specs.Puts.{Puts};
ghost use Rattle.sheet_lines.specs.SheetLines.{run_lines};

use decided::PassRuns;
use geometry::{Pass, Superblock};
use keys::Keys;
use sheet_lines::print_run_unchecked;
use text::Text;

pub(crate) fn print_runs(text: &mut Text<'_>, s: Superblock, pass: Pass, keys: &Keys)
    requires { text.old.at ≤ 1024 }
    ensures { Puts (run_lines (key_runs s pass keys.now.outer keys.now.inner)) text.old text.new }
{
    for a in PassRuns::new(s, pass, keys) {
        print_run_unchecked(text, a);
    }
}
