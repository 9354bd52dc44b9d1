//! What a client asks of a server is answered as the server's methods say, over the bytes of both.
//!
//! The laws join the two sides of a connection: what the one sends is what the other reads.
#![tactic(auto)]

mod laws;

pub use laws::requests_are_answered;
