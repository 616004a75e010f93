// The setting of a pass, by its numbers.
ghost use Rattle.superblock_pass.specs.SettingBy.{Tested, SettingOf};

use base::depth::Depth;
use base::sharpness::Sharpness;
use decided::superblock_of;
use geometry::pass_numbers::PassNumbers;
use pass::setting::PassSetting;
use pass_edges::pass_of;
use positions::PlacedSuperblock;

// By name and no TryFrom: whether numbers are refused depends besides on the samples' width and on how many cells are lent.
pub fn setting_of_unchecked(n: PassNumbers) -> PassSetting
    requires { Tested n }
    ensures { SettingOf n result }
{
    PassSetting {
        s: PlacedSuperblock {
            of: superblock_of(n),
        },
        pass: pass_of(n.pass),
        chroma: 0 < n.plane,
        sharpness: Sharpness { level: n.sharpness },
        depth: Depth { bits: n.bit_depth },
    }
}
