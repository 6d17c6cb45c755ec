// A replay's beginning, the endings that are left, and whose turn it is.
ghost use Rattle.std.specs.Prelude.{◌≡◌, length, MatchOption, ◌==◌};
ghost use Rattle.std.specs.List.{position};
ghost use Rattle.order.specs.Earliest.{Earliest};
ghost use Rattle.replay.specs.Turns.{by_place, next_from, turn_of, left_after, endings_of};
ghost use Rattle.replay.specs.Replays.{turns, next_place};
ghost use Rattle.replay.specs.Meaning.{rep_of, host_of, Began};

use crate::recording;
use crate::recording::Fault;
use crate::replay::{CAPACITY, Replay};
use crate::turn::Turn;
use arrayvec::ArrayVec;
use machine::Machine;
use order::earliest;
use std::alloc::Global;

impl Replay {
    // No files, clock 0, all endings of the recording left; a recording of another form is malformed.
    pub fn new(heap: Global, recording: &[u8]) -> Result<Replay, Fault>
        ensures { Began result (endings_of recording.now) }
    {
        let endings = recording::endings(recording).ok_or(Fault::Malformed)?;
        Ok(Replay {
            endings: Vec::from_slice(heap, endings)?,
            machine: Machine::new(heap, CAPACITY)?,
            dropped: 0,
        })
    }

    // The endings that are left, the next one first.
    pub fn endings_left(&self) -> &[u8]
        ensures { result.now ≡ (rep_of self.now).left }
    {
        &self.endings[self.dropped..]
    }

    // The place of the command that ends next.
    #[tactic(auto, using(crate::proofs::Order::first_place, crate::proofs::Order::first_law))]
    pub(crate) fn next_place(&self) -> Option<usize>
        ensures place { result ≡ next_place (rep_of self.now) }
        ensures first { MatchOption result (length (host_of self.now).pending ≡ 0) (λ k. Earliest by_place (turns (rep_of self.now)) k) }
    {
        earliest(self.turns().as_slice())
    }

    // The turns of the pending commands. A poll may not fail for want of memory, so they need none. A machine keeps its commands to itself
    // and tells their edges by place, so that there is no list to walk over.
    fn turns(&self) -> ArrayVec<Turn, CAPACITY>
        ensures { result.items ≡ turns (rep_of self.now) }
    {
        let mut turns = ArrayVec::new();
        for place in 0..self.machine.pending_len() {
            if let Some(edge) = self.machine.edge_at(place) {
                turns.push(self.turn_of(edge));
            }
        }
        turns
    }

    // The turn of an edge: the place of its next ending; past the last where it has none.
    #[tactic(auto, using(crate::proofs::Endings::next_is))]
    fn turn_of(&self, edge: usize) -> Turn
        ensures { result ≡ turn_of (rep_of self.now).left edge }
    {
        Turn {
            place: self.next_ending(edge).unwrap_or(self.endings_left().len()),
            edge,
        }
    }

    // The place of the edge's next ending.
    fn next_ending(&self, edge: usize) -> Option<usize>
        ensures { result ≡ position (λ e. e == edge) (rep_of self.now).left }
    {
        self.endings_left()
            .iter()
            .position(|&e| usize::from(e) == edge)
    }

    // Drops the endings through the edge's next; none where it has none.
    pub(crate) fn drop_endings(&mut self, edge: usize)
        ensures machine { self.new.machine ≡ self.old.machine }
        ensures left { (rep_of self.new).left ≡ left_after (rep_of self.old).left (next_from 0 (rep_of self.old).left edge) }
    {
        if let Some(place) = self.next_ending(edge) {
            self.dropped += place + 1;
        }
    }
}
