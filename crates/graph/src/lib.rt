// The graph that a manifest means: files, edges and pools, with the law that they keep.
#![tactic(auto)]

pub mod circle;
pub mod kinds;
pub mod methods;
pub mod whole;

pub use circle::{Unranked, order};
pub use kinds::{Edge, File, Pool};
pub use whole::Graph;
