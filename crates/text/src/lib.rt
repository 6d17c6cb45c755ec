// A manifest's text: from bytes to statements, one by one or all at once.
#![tactic(auto)]

pub mod kinds;
pub mod reading;
pub mod statement;

pub use kinds::{Body, Declared, Edge, Statement};
pub use reading::{check, manifest, next, start};
