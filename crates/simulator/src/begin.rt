// A fresh simulator, and its tick.
ghost use Rattle.std.specs.Prelude.{◌≡◌, IfOk};
ghost use Rattle.simulator.specs.Sims.{sim_fresh};
ghost use Rattle.simulator.specs.Simulators.{sim_of};

use crate::simulator::{CAPACITY, Simulator};
use machine::Machine;
use std::alloc::{AllocError, Global};

impl Simulator {
    // No files, clock 0, tick 0.
    pub fn new(heap: Global) -> Result<Simulator, AllocError>
        ensures { IfOk result (λ s. sim_of s ≡ sim_fresh) }
    {
        Ok(Simulator {
            machine: Machine::new(heap, CAPACITY)?,
            tick: 0,
            dues: Vec::with_capacity(heap, CAPACITY)?,
        })
    }

    // The tick of now.
    pub fn tick(&self) -> u64
        ensures { result ≡ (sim_of self.now).tick }
    {
        self.tick
    }
}
