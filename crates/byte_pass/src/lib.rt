// The work of a pass over one superblock of a plane of bytes, whose depth is 8.
#![tactic(auto)]

ghost use Rattle.std.specs.Prelude.{length};
ghost use Rattle.pass.specs.ByKeys.{FilteredBy};
ghost use Rattle.window.specs.WindowLaws.{Lent};

mod border;
mod chunk;
mod chunk_keys;
mod edge;
mod work;

use edge::filter_keys;
use keys::Keys;
use pass::setting::PassSetting;
use window::WindowShape;

// By the keys that cells tell, the pass over these cells.
pub fn filter_keys_unchecked(samples: &mut [u8], g: WindowShape, t: PassSetting, keys: &Keys)
    requires { Lent g (length samples.old) }
    ensures { FilteredBy g t.s.of t.pass t.sharpness.level 8 keys.now samples.old samples.new }
{
    filter_keys(samples, g, t, keys);
}
