// The text store: 32,768 bytes, of which those that are not used are zeros.
ghost use Rattle.std.specs.Prelude.{◌≡◌, ◌-◌, ◌≤◌, drop, replicate, vec_len};

// Callers read and hash all 32,768 bytes, so the vector has them at all times, and `used` says where the zeros begin.
#[derive(Drop)]
pub struct Store {
    pub(crate) bytes: Vec<u8>,
    pub(crate) used: usize,
    ghost whole: { vec_len bytes ≡ 32768 },
    ghost within: { used ≤ 32768 },
    ghost rest: { drop used bytes.items ≡ replicate (32768 - used) 0 },
}
