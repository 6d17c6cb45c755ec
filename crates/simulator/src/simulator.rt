// A simulator: a machine, a tick, and when each pending command is due.
ghost use Rattle.std.specs.Prelude.{◌≡◌, ℕ, ◌*◌, ◌<◌, ◌≤◌, map, length, vec_len, vec_capacity, slice_index_or};
ghost use Rattle.machine.specs.Machines.{state_of, capacity_of};
ghost use Rattle.simulator.specs.Dues.{due_edge, no_due};
ghost use Rattle.simulator.specs.Sims.{pending_edges};

use crate::due::Due;
use machine::Machine;

// How many commands may be pending.
pub(crate) const CAPACITY: usize = 16;

#[derive(Drop)]
pub struct Simulator {
    pub(crate) machine: Machine,
    pub(crate) tick: u64,
    // In the order of the pending. They stand beside the machine, which the replay shares and which is proved once: a replay has none.
    pub(crate) dues: Vec<Due>,
    ghost capacity: { capacity_of machine ≡ 16 },
    ghost room: { 16 ≤ vec_capacity dues },
    ghost paired: { map due_edge dues.items ≡ pending_edges (state_of machine) },
    ghost each: { length (state_of machine).pending ≡ vec_len dues },
    ghost current: { tick ≤ 1024 * (state_of machine).clock },
    ghost later: { (k : ℕ) → k < length dues.items → (slice_index_or dues.items k no_due).tick ≤ 1024 * (state_of machine).clock },
}
