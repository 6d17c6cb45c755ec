// The text store, and texts and variables that refer to it or to the manifest.
#![tactic(auto)]

pub mod calls;
pub mod held;
pub mod store;
pub mod text;
pub mod wrong;

pub use store::Store;
pub use text::{Text, Variable};
pub use wrong::{Stop, Wrong};
