// One pass over one superblock of a plane, as superblock_loop_filter_cells of the Rust's superblock_loop_filter.rs does it, for
// samples of either width and cells as words or as bytes.
#![tactic(auto)]

ghost use Rattle.std.specs.Prelude.{◌≡◌, true, ◌*◌, ◌≤◌, length};
ghost use Rattle.base.specs.Fault.{returned_of};
ghost use Rattle.base.specs.First.{refuse_first};
ghost use Rattle.base.specs.Outcome.{accepted, Answers};
ghost use Rattle.base.specs.Width.{admits};
ghost use Rattle.decisions.specs.Decision.{levelless};
ghost use Rattle.faults.specs.Faults.{lists_refused};
ghost use Rattle.geometry.specs.Frame.{cells_from};
ghost use Rattle.pass.specs.Pass.{superblock_loop_filter, superblock_loop_filter_cells};
ghost use Rattle.pass.specs.WorkLaws.{Ready};
ghost use Rattle.pass_edges.specs.PassEdges.{edge_count};
ghost use Rattle.superblock_pass.specs.SettingBy.{setting_by};

pub mod sample;
pub mod setting;

use base::fault::Fault;
use faults::{list_faults_unchecked, number_faults};
use geometry::pass_numbers::PassNumbers;
use keys::keys_unchecked;
use pass::setting::PassSetting;
use sample::PassSample;
use setting::setting_of_unchecked;
use window::WindowShape;
use word_bytes::Words;

// The work without the tests, for a caller that has made them.
pub fn superblock_loop_filter_unchecked<S: PassSample, C: Words>(
    samples: &mut [S],
    g: WindowShape,
    cells: C,
    t: PassSetting,
)
    requires { Ready g (setting_by t (C.words cells)) (S.values samples.old) × (admits S.width t.depth.bits ≡ true) }
    ensures { S.values samples.new ≡ superblock_loop_filter g (setting_by t (C.words cells)) t.pass (S.values samples.old) }
{
    let keys = keys_unchecked(cells, t.s, t.pass, t.chroma);
    S::filter_keys_unchecked(samples, g, t, &keys);
}

// All but the levels is tested. The keys tell whether one lacks, and are what the work goes by: nothing is decided twice.
#[tactic(auto, using(base::specs::First::no_place))]
fn test_levels_and_filter<S: PassSample, C: Words>(
    samples: &mut [S],
    g: WindowShape,
    cells: C,
    t: PassSetting,
) -> Result<(), Fault>
    requires { Ready g (setting_by t (C.words cells)) (S.values samples.old) × (admits S.width t.depth.bits ≡ true) }
    ensures { Answers (refuse_first (levelless t.s.of t.pass t.chroma (C.words cells)) (64 * edge_count t.s.of t.pass) 14 (accepted (superblock_loop_filter g (setting_by t (C.words cells)) t.pass (S.values samples.old)))) (returned_of result) (S.values samples.old) (S.values samples.new) }
{
    let keys = keys_unchecked(cells, t.s, t.pass, t.chroma);
    if let Some(place) = keys.lacking {
        return Err(Fault::NoLevel(place));
    }
    S::filter_keys_unchecked(samples, g, t, &keys);
    Ok(())
}

// The numbers are tested: now the lists, and then the work.
fn test_lists_and_filter<S: PassSample, C: Words>(
    samples: &mut [S],
    g: WindowShape,
    cells: C,
    t: PassSetting,
) -> Result<(), Fault>
    requires { (cells_from t.s.of.row t.s.of.cols t.s.of.rows ≤ length (C.words cells)) × (admits S.width t.depth.bits ≡ true) }
    ensures { Answers (lists_refused g (setting_by t (C.words cells)) t.pass (S.values samples.old) (accepted (superblock_loop_filter g (setting_by t (C.words cells)) t.pass (S.values samples.old)))) (returned_of result) (S.values samples.old) (S.values samples.new) }
{
    list_faults_unchecked(samples, g, cells, t.s, t.depth)?;
    test_levels_and_filter(samples, g, cells, t)
}

// Takes any samples, any cells and any numbers. A refusal leaves every sample as it was.
pub fn superblock_loop_filter_cells<S: PassSample, C: Words>(
    samples: &mut [S],
    g: WindowShape,
    cells: C,
    n: PassNumbers,
) -> Result<(), Fault>
    ensures { Answers (superblock_loop_filter_cells S.width g n.sharpness n.bit_depth n.sub_x n.sub_y n.mi_cols n.mi_rows n.mi_row n.mi_col n.plane n.pass (C.words cells) (S.values samples.old)) (returned_of result) (S.values samples.old) (S.values samples.new) }
{
    number_faults(n, S::admits(n.bit_depth), cells.count())?;
    test_lists_and_filter(samples, g, cells, setting_of_unchecked(n))
}
