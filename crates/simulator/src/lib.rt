// A simulated machine: a command takes a tick for each byte of its text, and the one that is due first ends first.
#![tactic(auto)]

mod begin;
mod calls;
mod due;
mod simulator;

pub use due::Due;
pub use simulator::Simulator;
