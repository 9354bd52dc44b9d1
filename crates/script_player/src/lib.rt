//! A script of a cluster, line by line: what its lines do to a world of nodes, and what is printed of it.
//!
//! [`replay`] plays the script that a source has. Its contract says what is printed, which line is bad and why, and that
//! every world of the run is safe and keeps what was acknowledged. [`drill`] does so with a script that it generates.
#![tactic(auto)]

mod delivering;
mod disk;
mod drilling;
mod hearing;
mod marks;
mod nowhere;
mod player;
mod replayed;
mod replaying;
mod script_fault;
mod stop;

pub use drilling::drill;
pub use replayed::Replayed;
pub use replaying::replay;
pub use script_fault::ScriptFault;

#[cfg(test)]
mod tests;
