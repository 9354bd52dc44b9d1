//! The commands of `mscs` over any input and output: [`run`] is the program but for its real streams.
#![tactic(auto)]

mod exporting;
mod opening;
mod peer;
mod running;
mod scripts;
mod serving;
mod showing;
mod status;

pub use running::run;
pub use script_player::ScriptFault;
pub use status::Status;
