// The machine that simulator and replay share: files, a clock and pending commands whose marks are hashes.
#![tactic(auto)]

mod calls;
mod checks;
mod command;
mod disk;
mod fnv;
mod machine;
mod outcome;
mod outputs;
mod writes;

pub use fnv::{command_len, fnv1a};
pub use machine::Machine;
