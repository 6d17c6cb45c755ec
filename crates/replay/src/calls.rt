// The replay's calls: the rules of a host, with every choice decided by the recording.
ghost use Rattle.std.specs.Prelude.{◌≡◌, ℕ, ◌<◌, false, IfSome, is_ok, MatchOption};
ghost use Rattle.std.proofs.Common.{subst, rules, arith};
ghost use Rattle.host.specs.State.{Lawful};
ghost use Rattle.host.specs.Calls.{start_answer, after_start, write_answer, after_write, Polls, BreaksOff};
ghost use Rattle.machine.specs.Fnv.{hashes};
ghost use Rattle.machine.specs.Ends.{break_answer, broken};
ghost use Rattle.replay.specs.Replays.{next_place, rep_polled, rep_answer, TurnFirst};
ghost use Rattle.replay.specs.Meaning.{rep_of, host_of};
ghost use Rattle.machine.specs.Machines.{state_of};
ghost use Rattle.machine.proofs.Laws.{machine_lawful};
ghost use Rattle.machine.proofs.Outcomes.{hashes_each};

use crate::replay::{CAPACITY, Replay};
use host::{Ended, FileView, Host, Job, Refusal, Stamped};

impl FileView for Replay {
    ghost files = { λ s. (host_of s).files };

    fn tell(&self, file: usize) -> Result<Option<Stamped>, Refusal> {
        self.machine.tell(file)
    }
}

// A method's own clauses stand in place of the trait's: one that says more says the trait's again.
impl Host for Replay {
    const CAPACITY: usize = CAPACITY;

    ghost CAPACITY = { 8 };

    ghost state = { λ s. host_of s };

    ghost makes = { hashes };

    ghost bounds = { first_of (Prim.search rules, Prim.grind (arith, Self.row.coded.inj)) };

    ghost sees = { first_of (Prim.search rules, Prim.grind (arith, Self.row.coded.inj)) };

    ghost lawful = { λ s. subst (λ (n : ℕ). Lawful n (state_of s.machine)) s.capacity (machine_lawful s.machine) };

    ghost each = { hashes_each };

    fn clock(&self) -> u32 {
        self.machine.clock()
    }

    fn start(&mut self, job: Job<'_>) -> Result<u32, Refusal>
        ensures answer { result ≡ start_answer 8 (host_of self.old) job.entry.edge job.entry.question.now job.entry.reads.now job.entry.outputs.now }
        ensures after { host_of self.new ≡ after_start 8 hashes (host_of self.old) job.entry.edge job.entry.question.now job.entry.reads.now job.entry.outputs.now }
        ensures left { (rep_of self.new).left ≡ (rep_of self.old).left }
        ensures kept { is_ok result ≡ false → self.new ≡ self.old }
    {
        self.machine.start(job)
    }

    fn poll(&mut self) -> Option<Ended>
        ensures polls { Polls (host_of self.old) result (host_of self.new) }
        ensures small { MatchOption result (self.new ≡ self.old) (λ e. e.edge < 128) }
        ensures answer { result ≡ rep_answer (rep_of self.old) (next_place (rep_of self.old)) }
        ensures exact { rep_of self.new ≡ rep_polled (rep_of self.old) (next_place (rep_of self.old)) }
        ensures first { IfSome result (λ e. TurnFirst (rep_of self.old) e) }
    {
        let place = self.next_place()?;
        let ended = self.machine.finish(place, true)?;
        self.drop_endings(ended.edge);
        Some(ended)
    }

    fn break_off(&mut self, edge: usize) -> Result<bool, Refusal>
        ensures breaks { BreaksOff (host_of self.old) edge result (host_of self.new) }
        ensures answer { result ≡ break_answer (host_of self.old) edge }
        ensures after { host_of self.new ≡ broken (host_of self.old) edge }
        ensures left { (rep_of self.new).left ≡ (rep_of self.old).left }
        ensures kept { is_ok result ≡ false → self.new ≡ self.old }
    {
        self.machine.break_off(edge)
    }

    fn outside_write(&mut self, file: usize, mark: Option<u32>) -> Result<u32, Refusal>
        ensures answer { result ≡ write_answer (host_of self.old) file }
        ensures after { host_of self.new ≡ after_write (host_of self.old) file mark }
        ensures left { (rep_of self.new).left ≡ (rep_of self.old).left }
        ensures kept { is_ok result ≡ false → self.new ≡ self.old }
    {
        self.machine.outside_write(file, mark)
    }
}
