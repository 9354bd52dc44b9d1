//! A client over the connection that a door hands out: its commands come from a source, and its lines go to a sink.
#![tactic(auto)]

mod asked;
mod connection;
mod conversation;
mod halt;
mod running;
mod text_lines;

pub use asked::Asked;
pub use running::ask_peer;
