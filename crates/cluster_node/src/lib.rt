//! One node of a cluster: its protocol over the log, and the connections of its clients.
//!
//! The member below it keeps the rules of the protocol and knows no connections; the connections know no word of the protocol. Here both are joined: what
//! a client may be answered from, which request waits for which update, and in which order all of it is told.
#![tactic(auto)]

mod clients;
mod following;
mod laws;
mod node;
mod protocol;
mod running;
mod taking;

pub use laws::{events_are_steps, keeps_numbers, keeps_room, stays_in_step};
pub use node::Node;
