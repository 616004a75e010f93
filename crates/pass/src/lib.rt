// The work of a pass over one superblock of a plane of 16-bit samples.
#![tactic(auto)]

ghost use Rattle.std.specs.Prelude.{◌^◌, length};
ghost use Rattle.pass.specs.ByKeys.{FilteredBy};
ghost use Rattle.window.specs.RangeLaws.{InRange};
ghost use Rattle.window.specs.WindowLaws.{Lent};

mod edge;
pub mod setting;

use edge::filter_keys;
use keys::Keys;
use setting::PassSetting;
use window::WindowShape;

// By the keys that cells tell, the pass over these cells. That samples are in range is a clause here and below: it is of the samples as
// they are lent, and each filter keeps it.
pub fn filter_keys_unchecked(samples: &mut [u16], g: WindowShape, t: PassSetting, keys: &Keys)
    requires { Lent g (length samples.old) × InRange g (2 ^ t.depth.bits) samples.old }
    ensures { FilteredBy g t.s.of t.pass t.sharpness.level t.depth.bits keys.now samples.old samples.new }
{
    filter_keys(samples, g, t, keys);
}
