// A replay: a machine, and the endings of a recording that are not yet dropped.
ghost use Rattle.std.specs.Prelude.{◌≡◌, ◌≤◌, vec_len};
ghost use Rattle.machine.specs.Machines.{capacity_of};

use machine::Machine;

// How many commands may be pending.
pub(crate) const CAPACITY: usize = 8;

#[derive(Drop)]
pub struct Replay {
    pub(crate) machine: Machine,
    pub(crate) endings: Vec<u8>,
    // how many of them are dropped: a number, since taking them out would move all that are left, at each poll
    pub(crate) dropped: usize,
    ghost capacity: { capacity_of machine ≡ 8 },
    ghost within: { dropped ≤ vec_len endings },
}
