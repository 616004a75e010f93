// The tests of a pass, in the order of their numbers.
#![tactic(auto)]

ghost use Rattle.std.specs.Prelude.{◌≡◌, true, List, ℕ, ◌≤◌, length};
ghost use Rattle.base.specs.Width.{admits};
ghost use Rattle.base.specs.Fault.{afterwards};
ghost use Rattle.base.specs.Outcome.{Outcome};
ghost use Rattle.geometry.specs.Frame.{cells_from};
ghost use Rattle.faults.specs.Faults.{numbers_refused};
ghost use Rattle.faults.specs.FaultsLaws.{lent_refused};

pub mod sample;

use bad_words::first_bad_word_unchecked;
use base::depth::Depth;
use base::fault::Fault;
use geometry::pass_numbers::PassNumbers;
use geometry::{bad_frame_size, bad_start, bad_subsampling, cell_count_unchecked};
use positions::PlacedSuperblock;
use sample::PlaneSample;
use window::{WindowShape, bad_window};
use word_bytes::Words;

// Tests and no values of types, which `setting_of_unchecked` makes once all is tested.
//
// Refusals 1 to 10, of a row with so many cells lent. Whether the depth is known is the matter of the samples' width.
#[tactic(auto, using(geometry::specs::FrameLaws::sized, geometry::specs::FrameLaws::started))]
pub fn number_faults(n: PassNumbers, known: bool, lent: usize) -> Result<(), Fault>
    ensures { (after : Outcome (List ℕ)) → numbers_refused n.sharpness known n.sub_x n.sub_y n.mi_cols n.mi_rows n.mi_row n.mi_col n.plane n.pass lent after ≡ afterwards result after }
{
    if 7 < n.sharpness {
        return Err(Fault::Sharpness);
    }
    if !known {
        return Err(Fault::Depth);
    }
    if bad_subsampling(n.sub_x, n.sub_y) {
        return Err(Fault::Subsampling);
    }
    if bad_frame_size(n.mi_cols, n.mi_rows) {
        return Err(Fault::FrameSize);
    }
    if bad_start(n.mi_row, n.mi_rows) {
        return Err(Fault::Row);
    }
    if lent < cell_count_unchecked(n.mi_row, n.mi_cols, n.mi_rows) {
        return Err(Fault::Short);
    }
    if (2 < n.plane) | (1 < n.pass) {
        return Err(Fault::PlaneOrPass);
    }
    if bad_start(n.mi_col, n.mi_cols) {
        return Err(Fault::Column);
    }
    Ok(())
}

// Refusals 11 to 13, once the numbers are tested. Refusal 14 is left to those who decide.
// That there are cells enough is a fact of cells and superblock together, and no value carries both.
#[tactic(auto, using(window::specs::WindowLaws::lent))]
pub fn list_faults_unchecked<S: PlaneSample, C: Words>(
    samples: &[S],
    g: WindowShape,
    cells: C,
    s: PlacedSuperblock,
    depth: Depth,
) -> Result<(), Fault>
    requires { (cells_from s.of.row s.of.cols s.of.rows ≤ length (C.words cells)) × (admits S.width depth.bits ≡ true) }
    ensures { (after : Outcome (List ℕ)) → lent_refused g s.of depth.bits (C.words cells) (S.values samples.now) after ≡ afterwards result after }
{
    let count = cell_count_unchecked(s.of.row, s.of.cols, s.of.rows);
    if let Some(k) = first_bad_word_unchecked(cells, count) {
        return Err(Fault::Cell(k));
    }
    if bad_window(g, samples.len()) {
        return Err(Fault::Window);
    }
    if let Some(k) = S::first_bad_unchecked(samples, g, depth) {
        return Err(Fault::Sample(k));
    }
    Ok(())
}
