// The texts of a manifest: its variables and their scopes, and what the store receives.
#![tactic(auto)]

mod bind;
pub mod reads;
pub mod rules;
pub mod texts;

pub use texts::Texts;
