//! The commands of a client: their words, and what they say.
//!
//! A line is one command. Its words stand behind one another with one space between them; an empty line, and one that begins
//! with `#`, is none. What isn't a command is refused at the column of the first word that doesn't fit.
#![tactic(auto)]

mod command;
mod command_fault;
mod line;
mod parsing;
mod words;

pub use command::Command;
pub use command_fault::CommandFault;
pub use parsing::parse_command;
