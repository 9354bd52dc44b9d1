//! The connections of one node without its protocol: which items of their streams are taken and when, what each is answered,
//! who waits for an update and how its call ends, and why a connection is closed.
#![tactic(auto)]

mod calls;
mod connection;
mod connections;
mod finishing;
mod items;
mod origin;
mod replies;
mod shared;
mod taken;
mod took;

pub use connections::Connections;
pub use finishing::Finished;
pub use origin::Origin;
pub use taken::Taken;
