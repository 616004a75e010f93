// Numbers of a record, the lowest byte first, and answers as it has them. One function for each type: from_le_bytes is of no trait, and
// each takes an array of its own length. Rows of numbers are read where they are asked for: a function over their count would need it in
// its closure's clause, which names no const parameter.
ghost use Rattle.std.specs.Prelude.{◌+◌, ◌≤◌};

use base::fault::Fault;

pub(crate) fn u16_at<const N: usize>(record: &[u8; N], at: usize) -> u16
    requires { at + 2 ≤ N }
{
    u16::from_le_bytes([record[at], record[at + 1]])
}

pub(crate) fn i16_at<const N: usize>(record: &[u8; N], at: usize) -> i16
    requires { at + 2 ≤ N }
{
    u16_at(record, at).cast_signed()
}

pub(crate) fn u32_at<const N: usize>(record: &[u8; N], at: usize) -> u32
    requires { at + 4 ≤ N }
{
    u32::from_le_bytes([record[at], record[at + 1], record[at + 2], record[at + 3]])
}

pub(crate) fn i32_at<const N: usize>(record: &[u8; N], at: usize) -> i32
    requires { at + 4 ≤ N }
{
    u32_at(record, at).cast_signed()
}

// Those that a call takes as a size.

pub(crate) fn size16_at<const N: usize>(record: &[u8; N], at: usize) -> usize
    requires { at + 2 ≤ N }
{
    usize::from(u16_at(record, at))
}

pub(crate) fn size32_at<const N: usize>(record: &[u8; N], at: usize) -> usize
    requires { at + 4 ≤ N }
{
    u32_at(record, at) as usize
}

// Whether an answer is a refusal with this number and place, or none where both are 0.
pub(crate) fn is_answer(answer: Result<(), Fault>, number: u8, place: usize) -> bool {
    match answer {
        Ok(()) => (number == 0) & (place == 0),
        Err(fault) => (fault.number() == u32::from(number)) & (fault.place() == place),
    }
}
