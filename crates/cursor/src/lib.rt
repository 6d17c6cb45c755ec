// A cursor over a manifest's bytes. Each method's contract is a definition over the bytes that are left.
#![tactic(auto)]

pub mod fault;
pub mod lines;
pub mod paths;
pub mod place;
pub mod scan;

pub use lines::Lead;
pub use place::{Cursor, Fault, Opens, Place};
