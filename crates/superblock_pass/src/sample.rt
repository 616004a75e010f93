// A sample of a plane that a pass filters.
ghost use Rattle.std.specs.Prelude.{◌≡◌, true, ◌^◌, length};
ghost use Rattle.base.specs.Width.{admits};
ghost use Rattle.pass.specs.ByKeys.{FilteredBy};
ghost use Rattle.window.specs.RangeLaws.{InRange};
ghost use Rattle.window.specs.WindowLaws.{Lent};

use faults::sample::PlaneSample;
use keys::Keys;
use pass::setting::PassSetting;
use window::WindowShape;

// That the width admits the depth is a clause of contracts, as at PlaneSample.
pub trait PassSample: PlaneSample {
    // By the keys that cells tell, the pass over these cells.
    fn filter_keys_unchecked(samples: &mut [Self], g: WindowShape, t: PassSetting, keys: &Keys)
        requires { Lent g (length (Self.values samples.old)) × InRange g (2 ^ t.depth.bits) (Self.values samples.old) × (admits Self.width t.depth.bits ≡ true) }
        ensures { FilteredBy g t.s.of t.pass t.sharpness.level t.depth.bits keys.now (Self.values samples.old) (Self.values samples.new) };
}

impl PassSample for u16 {
    fn filter_keys_unchecked(samples: &mut [u16], g: WindowShape, t: PassSetting, keys: &Keys) {
        pass::filter_keys_unchecked(samples, g, t, keys);
    }
}

impl PassSample for u8 {
    fn filter_keys_unchecked(samples: &mut [u8], g: WindowShape, t: PassSetting, keys: &Keys) {
        byte_pass::filter_keys_unchecked(samples, g, t, keys);
    }
}
