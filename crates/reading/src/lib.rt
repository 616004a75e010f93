// Reading into fixed memory.
#![tactic(auto)]

ghost use Rattle.std.specs.Prelude.{◌≤◌, length, IfOk};

use std::io;
use std::io::Read;

// Reads until the part is full or the input ends, and says how much was read. A while, since no method reads into fixed memory until it
// is full: read_exact does not say how much came before the end.
pub fn read_full<R: Read>(input: &mut R, part: &mut [u8]) -> io::Result<usize>
    ensures { IfOk result (λ count. count ≤ length part.new) }
{
    let mut done = 0;
    while done < part.len() {
        let more = input.read(&mut part[done..])?;
        if more == 0 {
            break;
        }
        done += more;
    }
    Ok(done)
}
