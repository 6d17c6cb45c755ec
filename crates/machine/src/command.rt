// A pending command: its edge, its outputs, and the hash that its marks come of.
ghost use Rattle.std.specs.Prelude.{◌≤◌};
ghost use Rattle.arrayvec.specs.ArrayVec.{array_vec_len};

use arrayvec::ArrayVec;

pub(crate) const MOST_OUTPUTS: usize = 8;

// A command that was started. Its hash is that of the question and the read marks; without one it fails.
#[derive(Drop)]
pub struct Pending {
    pub(crate) edge: usize,
    pub(crate) outputs: ArrayVec<u8, MOST_OUTPUTS>,
    pub(crate) hash: Option<u32>,
    ghost few: { array_vec_len outputs ≤ 8 },
}
