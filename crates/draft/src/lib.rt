// What the statements of a manifest come to, one after the other: variables, rules, pools, files and edges.
#![tactic(auto)]

mod blocks;
pub mod kinds;
pub mod statements;

pub use kinds::Draft;
