// A run whose taps are all in the window, as places in the list that is lent.
ghost use Rattle.std.specs.Prelude.{◌≡◌, ◌≢◌};

// n positions: p7 of the first is at the place at, taps are step apart and positions along, one of which is 1.
#[derive(Clone, Copy)]
pub struct TapRun {
    pub at: usize,
    pub step: usize,
    pub along: usize,
    pub n: usize,
    pub ghost unit: { step ≢ 1 → along ≡ 1 },
}
