// What a pass over bytes goes by, beside its samples and its keys.
use base::sharpness::Sharpness;
use strength::LimitTable;
use window::WindowShape;

#[derive(Clone, Copy)]
pub(crate) struct ByteWork {
    pub g: WindowShape,
    pub sharpness: Sharpness,
    pub limits: LimitTable,
}
