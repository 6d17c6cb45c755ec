// Bytes and words of a manifest: the class of each byte, and the words that have a meaning of their own.
#![tactic(auto)]

pub mod table;
pub mod words;

pub use table::{Class, class_of, is_banned, is_name, is_simple};
pub use words::{Word, in_pool, in_rule, word_at};
