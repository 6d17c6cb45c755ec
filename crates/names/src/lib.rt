// Names: what has one, where a list has one, what lines give to one; and the depth that a text says.
#![tactic(auto)]

pub mod depth;
pub mod named;

pub use depth::depth_of;
pub use named::{Named, last_value, place_of};
