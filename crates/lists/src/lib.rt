// The paths of a build statement: files by first mention, and the lists of an edge.
#![tactic(auto)]

mod files;
pub mod kinds;
pub mod paths;

pub use kinds::{Known, Paths};
pub use paths::take_paths;
