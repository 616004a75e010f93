// The limits of a level (8.8.4), computed: document 01 wants them in one table, which strength has, but a loop over lanes that
// read it at a place for each lane would make no vectors. What follows from the limit is computed too.
ghost use Rattle.std.specs.Prelude.{◌≡◌, ◌+◌, ◌*◌, ◌≤◌, ◌<◌};
ghost use Rattle.strength.specs.Strength.{shift, limit_of};
ghost use Rattle.byte_filters.specs.TopLimit.{top_limit};

use base::level::Level;
use base::sharpness::Sharpness;

fn shift_of(sharpness: Sharpness) -> u8
    ensures { (result ≡ shift sharpness.level) × (result ≤ 2) }
{
    if sharpness.level == 0 {
        return 0;
    }
    if sharpness.level <= 4 { 1 } else { 2 }
}

// The greatest limit.
fn top_of(sharpness: Sharpness) -> u8
    ensures { (result ≡ top_limit sharpness.level) × (0 < result) × (result ≤ 63) }
{
    if sharpness.level == 0 {
        63
    } else {
        9 - sharpness.level
    }
}

#[tactic(auto, unfolding(strength::specs::Strength::limit_of, base::specs::Notation::clip3), using(std::proofs::lemmas::Int::ints))]
pub(crate) fn limit_of(level: Level, sharpness: Sharpness) -> u8
    ensures { (result ≡ limit_of level.number sharpness.level) × (result ≤ 63) }
{
    (level.number >> shift_of(sharpness))
        .min(top_of(sharpness))
        .max(1)
}

pub(crate) fn blimit_of(level: Level, limit: u8) -> u8
    requires { limit ≤ 63 }
    ensures { (result ≡ 2 * (level.number + 2) + limit) × (result < 255) }
{
    2 * (level.number + 2) + limit
}
