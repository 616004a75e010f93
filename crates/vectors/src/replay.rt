// Reads a file of records, counts those that the library answers as they say, and prints the count.
use reading::read_full;
use std::fs::File;
use std::io::Read;
use std::rt::Files;
use std::{fmt, io};

// A proved loop has to end, and nothing says that a file does. No file has so many records.
const MOST_RECORDS: u64 = 100000;

// How many records there are, how many are equal, and the first that is different, counted from 0.
#[derive(Clone, Copy)]
struct Tally {
    records: u64,
    equal: u64,
    different: Option<u64>,
}

impl fmt::Display for Tally {
    fn fmt<W: fmt::Write>(&self, f: &mut fmt::Formatter<W>) -> fmt::Result {
        write!(f, "{} records, {} equal", self.records, self.equal)?;
        if let Some(first) = self.different {
            write!(f, ", first different {first}")?;
        }
        Ok(())
    }
}

// What a file is a list of. A trait and no const parameter: the borrow checker's part of a proof covers no bound Fn that names one.
pub(crate) trait Record: Copy {
    fn zeros() -> Self;

    fn bytes(&mut self) -> &mut [u8];
}

impl<const N: usize> Record for [u8; N] {
    fn zeros() -> [u8; N] {
        [0; N]
    }

    fn bytes(&mut self) -> &mut [u8] {
        &mut self[..]
    }
}

// Whether the next record is equal, or nothing at the file's end. A record that the end cuts short is different.
fn next_equal<R: Record, F: Fn(&R) -> bool>(
    input: &mut impl Read,
    is_equal: &F,
) -> io::Result<Option<bool>>
    requires { F.IsAlwaysCallable is_equal.now }
{
    let mut record = R::zeros();
    let bytes = record.bytes();
    let length = bytes.len();
    let got = read_full(input, bytes)?;
    if got == 0 {
        return Ok(None);
    }
    Ok(Some((got == length) & is_equal(&record)))
}

fn tally_of<R: Record, F: Fn(&R) -> bool>(input: &mut impl Read, is_equal: F) -> io::Result<Tally>
    requires { F.IsAlwaysCallable is_equal }
{
    let mut equal = 0;
    let mut different = None;
    // Counts what is read, up to the bound that ends it: no list is walked.
    for records in 0..MOST_RECORDS {
        let Some(is_same) = next_equal(input, &is_equal)? else {
            return Ok(Tally {
                records,
                equal,
                different,
            });
        };
        if is_same {
            equal += 1;
        } else {
            different = different.or(Some(records));
        }
    }
    Ok(Tally {
        records: MOST_RECORDS,
        equal,
        different,
    })
}

// The form is what follows the file's name.
pub(crate) fn replay<R: Record, F: Fn(&R) -> bool>(
    rt: &(impl Files + Print),
    name: &str,
    form: &str,
    is_equal: F,
) -> io::Result<()>
    requires { F.IsAlwaysCallable is_equal }
{
    print!(rt; "{name}{form}")?;
    let Ok(mut file) = File::open(rt, name) else {
        return println!(rt; ": cannot be read");
    };
    println!(rt; ": {}", tally_of(&mut file, is_equal)?)
}
