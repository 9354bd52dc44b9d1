//! The lines of a text, one after the other.
#![tactic(auto)]

mod cutting;

pub use cutting::TextLines;
