// Files by number, and the clock that stamps each write.
ghost use Rattle.std.specs.Prelude.{◌≡◌, vec_len};

use host::Stamped;

#[derive(Drop)]
pub struct Disk {
    pub(crate) files: Vec<Option<Stamped>>,
    pub(crate) clock: u32,
    ghost count: { vec_len files ≡ 256 },
}
