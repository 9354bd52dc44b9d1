//! What the run of a script prints: a line for each told value, for a node that is shown, and at the end; and what a user
//! is told of a line that can't be played.
#![tactic(auto)]

mod counts;
mod effects;
mod ends;
mod nodes;
mod refusals;
mod words;

pub use counts::Counts;
pub use effects::print_effect;
pub use ends::{print_drill, print_end};
pub use nodes::print_node;
pub use refusals::{bad_column, bad_event};

#[cfg(test)]
mod tests;
