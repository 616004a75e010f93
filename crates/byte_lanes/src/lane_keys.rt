// The keys of 16 lanes: bytes and a fact of them all, and no array of `Key`, since they are spread from lists of bytes, and
// definitions and folds read them as numbers. The sharpness is beside them and no field: it is the frame's, and keys are spread without
// it.
ghost use Rattle.byte_lanes.specs.ByteLanes.{Keys};

#[derive(Clone, Copy)]
pub struct LaneKeys {
    pub of: [u8; 16],
    pub ghost keyed: { Keys of },
}
