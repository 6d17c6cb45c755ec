// The calls of a machine: what both hosts do alike.
ghost use Rattle.std.specs.Prelude.{◌≡◌, ◌+◌, ◌<◌, ◌≤◌, min, false, length, is_some, is_ok, IfOk, Some, None, Ok, vec_len, MatchOption, MatchResult};
ghost use Rattle.host.specs.Calls.{command_of, started, written, start_answer, after_start, write_answer, after_write, Ends, BreaksOff};
ghost use Rattle.host.specs.Refusals.{bad_start, start_refusal, tell_answer};
ghost use Rattle.machine.specs.Fnv.{hashes};
ghost use Rattle.machine.specs.Ends.{edge_here, place_of, ending, ending_at, finished, finished_at, break_answer, broken, broken_at, broken_by};
ghost use Rattle.machine.specs.Machines.{state_of, capacity_of, fresh};

use crate::command::{MOST_OUTPUTS, Pending};
use crate::disk::Disk;
use crate::machine::Machine;
use crate::{checks, outputs};
use host::{Ended, Job, Refusal, Stamped};
use std::alloc::{AllocError, Global};

// The clock at which the last start and the last outside write are taken.
const LAST_CLOCK: u32 = 4_000_000_000;

const MOST_COMMANDS: usize = 64;

const LAST_EDGE: usize = 127;

const MOST_QUESTION: usize = 1024;

const MOST_READS: usize = 64;

impl Machine {
    // No files, clock 0, nothing pending; at most 64 commands may be.
    // Any number may be asked for, also one that is not known before the program runs, which a const parameter could not take: so each
    // call says that the capacity stays the same.
    pub fn new(heap: Global, capacity: usize) -> Result<Machine, AllocError>
        ensures fresh { IfOk result (λ m. state_of m ≡ fresh) }
        ensures capacity { IfOk result (λ m. capacity_of m ≡ min capacity 64) }
    {
        Machine::blank(heap, capacity.min(MOST_COMMANDS))
    }

    // A machine on which nothing has happened yet.
    fn blank(heap: Global, capacity: usize) -> Result<Machine, AllocError>
        requires { capacity ≤ 64 }
        ensures fresh { IfOk result (λ m. state_of m ≡ fresh) }
        ensures capacity { IfOk result (λ m. capacity_of m ≡ capacity) }
    {
        let disk = Disk::new(heap)?;
        let pending = Vec::with_capacity(heap, capacity)?;
        Ok(Machine {
            disk,
            pending,
            capacity,
        })
    }

    pub fn tell(&self, file: usize) -> Result<Option<Stamped>, Refusal>
        ensures { result ≡ tell_answer (state_of self.now).files file }
    {
        self.disk.tell(file)
    }

    pub fn clock(&self) -> u32
        ensures { result ≡ (state_of self.now).clock }
    {
        self.disk.time()
    }

    // The place of the edge's pending command.
    pub fn place_of(&self, edge: usize) -> Option<usize>
        ensures { result ≡ place_of (state_of self.now) edge }
    {
        checks::place_in(&self.pending, edge)
    }

    // How many commands are pending.
    pub fn pending_len(&self) -> usize
        ensures { result ≡ length (state_of self.now).pending }
    {
        self.pending.len()
    }

    // The edge of the pending command at a place.
    pub fn edge_at(&self, place: usize) -> Option<usize>
        ensures { result ≡ edge_here (state_of self.now) place }
    {
        checks::edge_in(&self.pending, place)
    }

    // Starts a command; accepted, the answer is the risen clock.
    pub fn start(&mut self, job: Job<'_>) -> Result<u32, Refusal>
        ensures answer { result ≡ start_answer (capacity_of self.old) (state_of self.old) job.entry.edge job.entry.question.now job.entry.reads.now job.entry.outputs.now }
        ensures after { state_of self.new ≡ after_start (capacity_of self.old) hashes (state_of self.old) job.entry.edge job.entry.question.now job.entry.reads.now job.entry.outputs.now }
        ensures kept { is_ok result ≡ false → self.new ≡ self.old }
        ensures capacity { capacity_of self.new ≡ capacity_of self.old }
    {
        self.check(job)?;
        Ok(self.admit(job))
    }

    // Refuses a start with the first refusal that fits it.
    fn check(&self, job: Job<'_>) -> Result<(), Refusal>
        ensures { let refusal = start_refusal (capacity_of self.now) (state_of self.now) job.entry.edge job.entry.question.now job.entry.reads.now job.entry.outputs.now in
            MatchResult result (λ _. refusal ≡ None) (λ r. refusal ≡ Some r) }
    {
        if self.is_bad(job) {
            return Err(Refusal::BadCall);
        }
        if self.pending_len() >= self.capacity {
            return Err(Refusal::Busy);
        }
        if self.disk.clock > LAST_CLOCK {
            return Err(Refusal::ClockSpent);
        }
        Ok(())
    }

    // Whether a start is no lawful call.
    fn is_bad(&self, job: Job<'_>) -> bool
        ensures { result ≡ bad_start (state_of self.now) job.entry.edge job.entry.question.now job.entry.reads.now job.entry.outputs.now }
    {
        job.edge > LAST_EDGE
            || checks::is_pending(&self.pending, job.edge)
            || job.question.len() > MOST_QUESTION
            || job.reads.len() > MOST_READS
            || job.outputs.is_empty()
            || job.outputs.len() > MOST_OUTPUTS
            || checks::has_stray(job.reads)
            || checks::has_stray(job.outputs)
            || checks::has_repeat(job.outputs)
    }

    // The clock rises, and the command pends with the outcome of now.
    fn admit(&mut self, job: Job<'_>) -> u32
        requires { start_refusal (capacity_of self.old) (state_of self.old) job.edge job.question.now job.reads.now job.outputs.now ≡ None }
        ensures answer { result ≡ self.old.disk.clock + 1 }
        ensures after { state_of self.new ≡ started None (state_of self.old) (command_of hashes (state_of self.old) job.entry.edge job.entry.question.now job.entry.reads.now job.entry.outputs.now) }
        ensures capacity { capacity_of self.new ≡ capacity_of self.old }
    {
        let hash = self.disk.hash_of(job.question, job.reads);
        let outputs = outputs::kept(job.outputs);
        self.disk.rise();
        self.pending.push_reserved(Pending {
            edge: job.edge,
            outputs,
            hash,
        });
        self.disk.clock
    }

    // Ends the command at a place, if there is one, and tells its end. An output that has its mark is rewritten only if asked.
    pub fn finish(&mut self, place: usize, rewrites: bool) -> Option<Ended>
        ensures answer { result ≡ ending_at (state_of self.old) place }
        ensures after { state_of self.new ≡ finished_at rewrites (state_of self.old) place }
        ensures ends { MatchOption result (self.new ≡ self.old) (λ e. Ends (state_of self.old) e (state_of self.new)) }
        ensures capacity { capacity_of self.new ≡ capacity_of self.old }
    {
        if place >= self.pending_len() {
            return None;
        }
        Some(self.end_at(place, rewrites))
    }

    // Ends the command at a place.
    fn end_at(&mut self, place: usize, rewrites: bool) -> Ended
        requires { place < vec_len self.old.pending }
        ensures answer { result ≡ ending (state_of self.old) place }
        ensures after { state_of self.new ≡ finished rewrites (state_of self.old) place }
        ensures ends { Ends (state_of self.old) result (state_of self.new) }
        ensures capacity { capacity_of self.new ≡ capacity_of self.old }
    {
        let command = self.pending.remove(place);
        self.disk.leave(&command, rewrites);
        Ended {
            edge: command.edge,
            good: command.hash.is_some(),
        }
    }

    // Removes the edge's command with its outputs, and says whether there was one.
    pub fn break_off(&mut self, edge: usize) -> Result<bool, Refusal>
        ensures answer { result ≡ break_answer (state_of self.old) edge }
        ensures after { state_of self.new ≡ broken (state_of self.old) edge }
        ensures breaks { BreaksOff (state_of self.old) edge result (state_of self.new) }
        ensures kept { is_ok result ≡ false → self.new ≡ self.old }
        ensures capacity { capacity_of self.new ≡ capacity_of self.old }
    {
        if edge > LAST_EDGE {
            return Err(Refusal::BadCall);
        }
        Ok(self.drop_of(edge))
    }

    // Removes the edge's command with its outputs, if it is pending.
    fn drop_of(&mut self, edge: usize) -> bool
        ensures answer { result ≡ is_some (place_of (state_of self.old) edge) }
        ensures after { state_of self.new ≡ broken_by (state_of self.old) (place_of (state_of self.old) edge) }
        ensures breaks { edge ≤ 127 → BreaksOff (state_of self.old) edge (Ok result) (state_of self.new) }
        ensures capacity { capacity_of self.new ≡ capacity_of self.old }
    {
        let Some(place) = self.place_of(edge) else {
            return false;
        };
        self.drop_at(place);
        true
    }

    // Removes the command at a place with its outputs.
    fn drop_at(&mut self, place: usize)
        requires { place < vec_len self.old.pending }
        ensures after { state_of self.new ≡ broken_at (state_of self.old) place }
        ensures capacity { capacity_of self.new ≡ capacity_of self.old }
    {
        let command = self.pending.remove(place);
        self.disk.remove_all(&command.outputs);
    }

    // A write from outside.
    pub fn outside_write(&mut self, file: usize, mark: Option<u32>) -> Result<u32, Refusal>
        ensures answer { result ≡ write_answer (state_of self.old) file }
        ensures after { state_of self.new ≡ after_write (state_of self.old) file mark }
        ensures kept { is_ok result ≡ false → self.new ≡ self.old }
        ensures capacity { capacity_of self.new ≡ capacity_of self.old }
    {
        let file = u8::try_from(file).map_err(|_| Refusal::BadCall)?;
        if self.disk.clock > LAST_CLOCK {
            return Err(Refusal::ClockSpent);
        }
        Ok(self.put(file, mark))
    }

    // The clock rises, and the file gets the mark or is removed; the answer is the risen clock.
    fn put(&mut self, file: u8, mark: Option<u32>) -> u32
        requires { self.old.disk.clock ≤ 4000000000 }
        ensures answer { result ≡ self.old.disk.clock + 1 }
        ensures after { state_of self.new ≡ written None (state_of self.old) file mark }
        ensures capacity { capacity_of self.new ≡ capacity_of self.old }
    {
        self.disk.place(file, mark);
        self.disk.clock
    }
}
