//! The command that the words behind the program's name ask for. clap assigns the words to a form;
//! the numbers in them are read behind it.
#![tactic(auto)]

mod command;
mod form;
mod grammar;
mod number;

pub use command::{Command, command_of};
