//! One registry in memory, its handles, and the association of the connection that is present: what each item of a client's
//! stream is answered, and what it changes.
#![tactic(auto)]

mod calls;
mod effect;
mod replies;
mod server;

pub use server::Server;
