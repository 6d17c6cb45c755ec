// What values stand for: names looked up, values expanded, and what the store keeps of them.
#![tactic(auto)]

pub mod expand;
pub mod keep;
pub mod limits;
mod scan;
pub mod scope;
