// Reading a manifest: from bytes to a graph and a text store, or to a fault with its place.
#![tactic(auto)]

mod edge_values;
mod edges;
pub mod fault;
pub mod kinds;
pub mod loading;
mod numbers;
mod paths;
pub mod pieces;
mod questions;
mod reading;

pub use fault::{Fault, Refusal};
pub use loading::load;
