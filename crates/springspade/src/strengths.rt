// The strength and the mode type, for C.
ghost use Rattle.std.specs.Prelude.{◌≡◌};
ghost use Rattle.strength.specs.Strength.{strength_for, mode_type};
ghost use Rattle.c_strength.specs.StrengthEntry.{entry_of};

use c_strength::Strength;

// The strength of the line filter for a level, 0 to 63, and the frame's sharpness, 0 to 7.
// Refusals: 1 sharpness above 7; 6 level above 63.
#[unsafe(no_mangle)]
pub extern "C" fn springspade_strength(level: u8, sharpness: u8) -> Strength
    ensures { result ≡ entry_of (strength_for level sharpness) }
{
    c_strength::springspade_strength(level, sharpness)
}

// The mode type of a mode: 1 for NEARESTMV (10), NEARMV (11) and NEWMV (13), 0 for any other number.
#[unsafe(no_mangle)]
pub extern "C" fn springspade_mode_type(y_mode: u8) -> usize
    ensures { result ≡ mode_type y_mode }
{
    c_strength::springspade_mode_type(y_mode)
}
