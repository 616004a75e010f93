// The strength and the mode type.
// The crate springspade exports its functions to C, and says what their arguments are.
#![tactic(auto)]

ghost use Rattle.std.specs.Prelude.{◌≡◌};
ghost use Rattle.base.specs.Fault.{number_of};
ghost use Rattle.base.specs.Outcome.{accepted, refused};
ghost use Rattle.strength.specs.Strength.{mode_type, strength_for};
ghost use Rattle.c_strength.specs.StrengthEntry.{entry_of};

use base::fault::Fault;
use strength::FilterStrength;

// Numbers and no Result, since it crosses to C.
//
// The answer of springspade_strength: number and place 0 with the three values, or the number of the refusal with
// zeros. The values are those of 8 bits; springspade_line scales them to its bit_depth.
#[repr(C)]
#[derive(Clone, Copy)]
pub struct Strength {
    // 0, or the number of the refusal.
    pub number: u32,
    // Where, or 0.
    pub place: u32,
    // How much neighbours on one side of the edge may differ.
    pub limit: u8,
    // How much the two sides may differ.
    pub blimit: u8,
    // How much neighbours differ before only two samples are changed.
    pub thresh: u8,
}

impl From<FilterStrength> for Strength {
    ghost from_gives = { λ s entry. entry ≡ entry_of (accepted s) };

    fn from(s: FilterStrength) -> Strength {
        Strength {
            number: 0,
            place: 0,
            limit: s.limit,
            blimit: s.blimit,
            thresh: s.thresh,
        }
    }
}

// Neither refusal of a strength has a place.
impl From<Fault> for Strength {
    ghost from_gives = { λ fault entry. entry ≡ entry_of (refused (number_of fault) 0) };

    fn from(fault: Fault) -> Strength {
        Strength {
            number: fault.number(),
            place: 0,
            limit: 0,
            blimit: 0,
            thresh: 0,
        }
    }
}

// The strength of the line filter for a level and the frame's sharpness.
#[tactic(auto, unfolding(strength::specs::Strength::strength_for))]
pub fn springspade_strength(level: u8, sharpness: u8) -> Strength
    ensures { result ≡ entry_of (strength_for level sharpness) }
{
    match strength::strength_for_level(level, sharpness) {
        Ok(s) => Strength::from(s),
        Err(fault) => Strength::from(fault),
    }
}

// The mode type of a mode.
pub fn springspade_mode_type(y_mode: u8) -> usize
    ensures { result ≡ mode_type y_mode }
{
    strength::mode_to_mode_type(y_mode)
}
