// The simulator's calls: the rules of a host, with every choice decided.
ghost use Rattle.std.specs.Prelude.{◌≡◌, ℕ, ◌<◌, false, length, IfSome, is_ok, MatchOption};
ghost use Rattle.std.proofs.Common.{subst, rules, arith};
ghost use Rattle.host.specs.Calls.{start_answer, after_start, write_answer, after_write, Polls, BreaksOff};
ghost use Rattle.machine.specs.Fnv.{hashes};
ghost use Rattle.machine.specs.Ends.{break_answer};
ghost use Rattle.order.specs.Earliest.{Earliest, earliest_place};
ghost use Rattle.simulator.specs.Dues.{by_due};
ghost use Rattle.simulator.specs.Sims.{sim_after_start, sim_polled, sim_answer, sim_broken, sim_after_write, DueFirst};
ghost use Rattle.simulator.specs.Simulators.{sim_of, host_of};
ghost use Rattle.host.specs.State.{Lawful};
ghost use Rattle.machine.specs.Machines.{state_of};
ghost use Rattle.machine.proofs.Laws.{machine_lawful};
ghost use Rattle.machine.proofs.Outcomes.{hashes_each};

use crate::due::Due;
use crate::simulator::{CAPACITY, Simulator};
use host::{Ended, FileView, Host, Job, Refusal, Stamped};
use machine::command_len;
use order::earliest;

impl Simulator {
    // The place of the command that is due first.
    #[tactic(auto, using(crate::proofs::Order::first_place, crate::proofs::Order::first_law))]
    fn first_due(&self) -> Option<usize>
        ensures place { result ≡ earliest_place by_due (sim_of self.now).dues }
        ensures first { MatchOption result (length (sim_of self.now).dues ≡ 0) (λ k. Earliest by_due (sim_of self.now).dues k) }
    {
        earliest(&self.dues)
    }
}

impl FileView for Simulator {
    ghost files = { λ s. (host_of s).files };

    fn tell(&self, file: usize) -> Result<Option<Stamped>, Refusal> {
        self.machine.tell(file)
    }
}

// A method's own clauses stand in place of the trait's: one that says more says the trait's again.
impl Host for Simulator {
    const CAPACITY: usize = CAPACITY;

    ghost CAPACITY = { 16 };

    ghost state = { λ s. host_of s };

    ghost makes = { hashes };

    ghost bounds = { first_of (Prim.search rules, Prim.grind (arith, Self.row.coded.inj)) };

    ghost sees = { first_of (Prim.search rules, Prim.grind (arith, Self.row.coded.inj)) };

    ghost lawful = { λ s. subst (λ (n : ℕ). Lawful n (state_of s.machine)) s.capacity (machine_lawful s.machine) };

    ghost each = { hashes_each };

    fn clock(&self) -> u32 {
        self.machine.clock()
    }

    fn start(&mut self, job: Job<'_>) -> Result<u32, Refusal>
        ensures answer { result ≡ start_answer 16 (host_of self.old) job.entry.edge job.entry.question.now job.entry.reads.now job.entry.outputs.now }
        ensures after { host_of self.new ≡ after_start 16 hashes (host_of self.old) job.entry.edge job.entry.question.now job.entry.reads.now job.entry.outputs.now }
        ensures exact { sim_of self.new ≡ sim_after_start (sim_of self.old) job.entry.edge job.entry.question.now job.entry.reads.now job.entry.outputs.now }
        ensures kept { is_ok result ≡ false → self.new ≡ self.old }
    {
        let clock = self.machine.start(job)?;
        let tick = self.tick + command_len(job.question) as u64;
        self.dues.push_reserved(Due {
            tick,
            edge: job.edge,
        });
        Ok(clock)
    }

    fn poll(&mut self) -> Option<Ended>
        ensures polls { Polls (host_of self.old) result (host_of self.new) }
        ensures small { MatchOption result (self.new ≡ self.old) (λ e. e.edge < 128) }
        ensures answer { result ≡ sim_answer (sim_of self.old) (earliest_place by_due (sim_of self.old).dues) }
        ensures exact { sim_of self.new ≡ sim_polled (sim_of self.old) (earliest_place by_due (sim_of self.old).dues) }
        ensures first { IfSome result (λ e. DueFirst (sim_of self.old) e (sim_of self.new)) }
    {
        let place = self.first_due()?;
        self.tick = self.dues.remove(place).tick;
        self.machine.finish(place, false)
    }

    fn break_off(&mut self, edge: usize) -> Result<bool, Refusal>
        ensures breaks { BreaksOff (host_of self.old) edge result (host_of self.new) }
        ensures answer { result ≡ break_answer (host_of self.old) edge }
        ensures exact { sim_of self.new ≡ sim_broken (sim_of self.old) edge }
        ensures kept { is_ok result ≡ false → self.new ≡ self.old }
    {
        let place = self.machine.place_of(edge);
        let was_pending = self.machine.break_off(edge)?;
        if let Some(place) = place {
            self.dues.remove(place);
        }
        Ok(was_pending)
    }

    fn outside_write(&mut self, file: usize, mark: Option<u32>) -> Result<u32, Refusal>
        ensures answer { result ≡ write_answer (host_of self.old) file }
        ensures after { host_of self.new ≡ after_write (host_of self.old) file mark }
        ensures exact { sim_of self.new ≡ sim_after_write (sim_of self.old) file mark }
        ensures kept { is_ok result ≡ false → self.new ≡ self.old }
    {
        self.machine.outside_write(file, mark)
    }
}
