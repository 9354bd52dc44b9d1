//! The lines of a script: their words, and what they say.
//!
//! A line is an event of a world, or something that a player of the script does. Its words stand behind one another with one
//! space between them; an empty line, and one that begins with `#`, says nothing. What isn't a line is refused at the column
//! of the first word that doesn't fit.
#![tactic(auto)]

mod crashes;
mod cutting;
mod events;
mod line;
mod line_fault;
mod numbers;
mod parsing;
mod players;
mod requests;
mod values;
mod views;
mod words;

pub use line::Line;
pub use line_fault::LineFault;
pub use parsing::parse_line;
pub use requests::{bind_bytes, request_bytes};
