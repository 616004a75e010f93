// The strength of a filter level (8.8.4), in the order of the Rust's adaptive_filter_strength.rs.
#![tactic(auto)]

ghost use Rattle.std.specs.Prelude.{◌≡◌, ◌≤◌};
ghost use Rattle.base.specs.Fault.{outcome_of};
ghost use Rattle.strength.specs.Strength.{mode_type, strength_of, strength_for};
ghost use Rattle.strength.specs.StrengthLaws.{Limits};

mod limits;

use base::fault::Fault;
use base::level::Level;
use base::sharpness::Sharpness;
use limits::LIMITS;

// Modes arrive as lent bytes, and any byte is taken: numbers, and no enum.
pub const NEARESTMV: u8 = 10;

pub const NEARMV: u8 = 11;

pub const ZEROMV: u8 = 12;

pub const NEWMV: u8 = 13;

// What the line filter is set by.
#[derive(Clone, Copy, Debug, PartialEq, Eq)]
pub struct FilterStrength {
    pub lvl: u8,
    pub limit: u8,
    pub blimit: u8,
    pub thresh: u8,
}

// Takes any mode: 1 for those that predict a motion vector.
#[tactic(auto, unfolding(crate::specs::Strength::mode_type))]
pub fn mode_to_mode_type(mode: u8) -> usize
    ensures { result ≡ mode_type mode }
{
    usize::from(matches!(mode, NEARESTMV | NEARMV | NEWMV))
}

// The limits of all levels at all sharpnesses.
#[derive(Clone, Copy)]
pub struct LimitTable {
    pub limits: [u8; 512],
    pub ghost ruled: { Limits limits },
}

// A caller with many levels takes the table once: the compiler lays a constant array on the stack where it is read.
pub fn limits_table() -> LimitTable {
    LimitTable { limits: LIMITS }
}

impl LimitTable {
    pub fn strength(&self, level: Level, sharpness: Sharpness) -> FilterStrength
        ensures { result ≡ strength_of level.number sharpness.level }
    {
        let lvl = level.number;
        let limit = self.limits[usize::from(sharpness.level) * 64 + usize::from(lvl)];
        FilterStrength {
            lvl,
            limit,
            blimit: 2 * (lvl + 2) + limit,
            thresh: lvl / 16,
        }
    }
}

// Takes any level and any sharpness. Of two refusals the lower number.
#[tactic(auto, unfolding(crate::specs::Strength::strength_for))]
pub fn strength_for_level(lvl: u8, sharpness: u8) -> Result<FilterStrength, Fault>
    ensures { outcome_of result ≡ strength_for lvl sharpness }
{
    let sharpness = Sharpness::try_from(sharpness)?;
    let level = Level::try_from(lvl)?;
    Ok(limits_table().strength(level, sharpness))
}
