// What several parts print alike.
use base::fault::Fault;
use std::fmt::Display;
use std::io;

// Each number behind a space.
pub(crate) fn print_numbers<T: Display>(rt: &impl Print, numbers: &[T]) -> io::Result<()> {
    for number in numbers {
        print!(rt; " {number}")?;
    }
    println!(rt)
}

// Built-in input is refused nowhere. The program's error is that of its output, so that it says of a failed write what the system said.
pub(crate) fn refused(_fault: Fault) -> io::Error {
    io::Error::other("built-in input was refused")
}

// A flag as it is printed.
pub(crate) fn yes_or_no(flag: bool) -> &'static str {
    if flag { "yes" } else { "no" }
}
