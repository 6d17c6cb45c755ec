// The parts of statements: lists of paths, blocks of variables, and the lines between statements.
#![tactic(auto)]

pub mod blocks;
pub mod kinds;
pub mod lists;
pub mod refusal;

pub use kinds::{Binding, Block, Inputs, Outputs};
pub use refusal::Refusal;
