// What is done for each edge once all statements are read; a fault has the place of its edge.
ghost use Rattle.std.specs.Prelude.{◌≡◌, ℕ, ◌<◌, length, OnOk};
ghost use Rattle.store.specs.Try.{Try, Gives};
ghost use Rattle.graph.specs.Data.{edge_at};
ghost use Rattle.draft.specs.State.{State};
ghost use Rattle.draft.specs.Drafts.{state_of};
ghost use Rattle.reader.specs.Answers.{at};
ghost use Rattle.reader.specs.Load.{each_edge};
ghost use Rattle.reader.specs.Told.{Tells, StopsAt};

use crate::fault::{Fault, Refusal};
use cursor::Place;
use draft::Draft;
use store::Stop;

// Why the reading stops, with the place.
pub(crate) fn stopped(s: Stop, place: Place) -> Refusal
    ensures { StopsAt result s place }
{
    match s {
        Stop::Because(w) => Refusal::Faulty(Fault::Meaning(w, place)),
        Stop::Memory => Refusal::Memory,
    }
}

// A step that is taken for each edge.
pub(crate) trait Step {
    ghost step: { State → ℕ → Try State };

    // Takes the step for the edge e. The number is no type of its own: steps change the draft whose edges it counts.
    fn take(d: &mut Draft, e: usize) -> Result<(), Stop>
        requires { e < length (state_of d.old).edges }
        ensures says { Gives (λ _. state_of d.new) result (step (state_of d.old) e) }
        ensures long { OnOk result (length (state_of d.new).edges ≡ length (state_of d.old).edges) };
}

fn step_at<S: Step>(d: &mut Draft, e: usize) -> Result<(), Refusal>
    requires { e < length (state_of d.old).edges }
    ensures says { Tells (λ _. state_of d.new) result (at (edge_at (state_of d.old).edges e).place (S.step (state_of d.old) e)) }
    ensures long { OnOk result (length (state_of d.new).edges ≡ length (state_of d.old).edges) }
{
    let place = d.edges[e].place;
    S::take(d, e).map_err(|s| stopped(s, place))
}

// Takes the step for one edge after the other.
pub(crate) fn each_edge<S: Step>(d: &mut Draft) -> Result<(), Refusal>
    ensures { Tells (λ _. state_of d.new) result (each_edge S.step (length (state_of d.old).edges) 0 (state_of d.old)) }
{
    // by number: a step changes the draft of which the edge is a part
    for e in 0..d.edges.len() {
        step_at::<S>(d, e)?;
    }
    Ok(())
}
