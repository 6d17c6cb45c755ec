// The text of a script: its lines, their words, and the numbers among them.
#![tactic(auto)]

mod colons;
mod lines;
mod numbers;

pub use colons::cut_at_colon;
pub use lines::{Lines, Words};
pub use numbers::{decimal, file_number, mark};
