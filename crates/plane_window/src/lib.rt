// A window of a plane as one record, which holds the caller's samples, and the pass over it.
#![tactic(auto)]

ghost use Rattle.std.specs.Prelude.{◌≡◌};
ghost use Rattle.base.specs.Outcome.{Answers};
ghost use Rattle.base.specs.Fault.{returned_of};
ghost use Rattle.plane_window.specs.PlaneWindow.{pass_over};

use base::fault::Fault;
use geometry::pass_numbers::PassNumbers;
use superblock_pass::superblock_loop_filter_cells;
use window::WindowShape;

// The samples that are lent, and where the window lies in them and in its plane.
#[derive(Drop)]
pub struct PlaneWindow<'a> {
    pub samples: &'a mut [u16],
    pub shape: WindowShape,
}

// The record is made.
pub fn window_of<'a>(samples: &'a mut [u16], g: WindowShape) -> PlaneWindow<'a>
    ensures { (result.samples ≡ samples.entry) × (result.shape ≡ g) }
{
    PlaneWindow { samples, shape: g }
}

// The record is taken apart: samples and shape go to the pass.
pub fn pass_window<'a, 'b>(
    w: PlaneWindow<'a>,
    cells: &'b [u32],
    n: PassNumbers,
) -> Result<(), Fault>
    ensures { Answers (pass_over w.entry.shape n cells.now w.entry.samples.now) (returned_of result) w.entry.samples.now w.exit.0.now }
{
    let PlaneWindow { samples, shape } = w;
    superblock_loop_filter_cells(samples, shape, cells, n)
}
