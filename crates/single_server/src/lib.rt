//! Node 1 by itself over one log: it serves a recorded stream, or the connections of a door.
#![tactic(auto)]

mod delivering;
mod ended;
mod hearing;
mod opening;
mod replying;
mod running;
mod sending;
mod serving;
mod talking;

pub use ended::Ended;
pub use running::session;
pub use serving::serve;
