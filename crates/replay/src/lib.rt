// A machine along a recording of a real one: the commands end in the order that the recording has.
#![tactic(auto)]

mod calls;
mod next;
mod recording;
mod replay;
mod turn;

pub use recording::Fault;
pub use replay::Replay;
pub use turn::Turn;
