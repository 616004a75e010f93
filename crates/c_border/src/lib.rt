// What crosses the border after a call. C has no Result, so what a call answers crosses as two numbers: which refusal, or 0 where the call
// was accepted, and at which place. The crate springspade says why its functions and those of the crates c_* have such arguments
// as C lends.
#![tactic(auto)]

ghost use Rattle.std.specs.Prelude.{◌≡◌};
ghost use Rattle.base.specs.Fault.{number_of, place_of, returned_of};
ghost use Rattle.c_border.specs.Border.{numbers_of, crossing};

use base::fault::Fault;

// Two numbers and no Result, since it crosses to C.
//
// What a call answers: number and place 0 where it was accepted, else the number of the refusal and its place, which is
// 0 where the number names none. Of several refusals the lowest number is given, with its smallest place. A refused
// call writes nothing.
#[repr(C)]
#[derive(Clone, Copy, Debug, PartialEq, Eq)]
pub struct Refusal {
    // 0, or the number of the refusal.
    pub number: u32,
    // Where, or 0.
    pub place: u32,
}

// The place crosses in 32 bits.
impl From<Fault> for Refusal {
    ghost from_gives = { λ fault refusal. numbers_of refusal ≡ crossing (record { number = number_of fault; place = place_of fault }) };

    fn from(fault: Fault) -> Refusal {
        Refusal {
            number: fault.number(),
            place: (fault.place() % 4294967296) as u32,
        }
    }
}

// An answer as it crosses the border. A function and no From of the answer, which would hide that what an answer holds does not cross.
pub fn refusal_of<A: Copy>(answer: Result<A, Fault>) -> Refusal
    ensures { numbers_of result ≡ crossing (returned_of answer) }
{
    match answer {
        Ok(_) => Refusal {
            number: 0,
            place: 0,
        },
        Err(fault) => Refusal::from(fault),
    }
}
