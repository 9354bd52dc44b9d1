//! Node 1 by itself over one log, with what it leaves on the disk: it serves a recorded stream, or the connections of a door.
#![tactic(auto)]

mod door;
mod recorded;

pub use door::serve;
pub use recorded::session;
