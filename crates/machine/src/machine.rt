// A machine: a disk and the commands that pend on it. Its ghost fields hold the laws that every host keeps.
ghost use Rattle.std.specs.Prelude.{◌≡◌, ◌+◌, ◌*◌, ◌≤◌, map, length, vec_len, vec_capacity};
ghost use Rattle.host.specs.State.{Lawful};
ghost use Rattle.machine.specs.Pendings.{state_from, told};

use crate::command::Pending;
use crate::disk::Disk;

#[derive(Drop)]
pub struct Machine {
    pub(crate) disk: Disk,
    pub(crate) pending: Vec<Pending>,
    pub(crate) capacity: usize,
    ghost small: { capacity ≤ 64 },
    ghost room: { capacity ≤ vec_capacity pending },
    ghost few: { vec_len pending ≤ capacity },
    ghost clock: { disk.clock + 8 * vec_len pending ≤ 4000000513 },
    ghost each: { length (map told pending.items) ≡ vec_len pending },
    ghost lawful: { ∥ Lawful capacity (state_from disk.files.items disk.clock pending.items) ∥₁ },
}
