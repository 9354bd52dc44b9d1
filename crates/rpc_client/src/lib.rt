//! A client of the cluster registry over one connection: it turns commands into requests, and what it is answered into lines.
//!
//! A [`Client`] does no input and no output itself. It is fed the bytes of the server's stream in pieces, cut anywhere, and asked
//! by [`Client::next`] what is to be done next.
#![tactic(auto)]

mod ask;
mod client;
mod client_fault;
mod laws;

pub use ask::Ask;
pub use client::Client;
pub use client_commands::{Command, CommandFault, parse_command};
pub use client_fault::ClientFault;
pub use laws::{bad_replies_stand, exchanges_are_one};
