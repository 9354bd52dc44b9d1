//! The words of rows: what the programs share whose stored runs are tables of worked cases.
//!
//! It serves these programs alone, and promises to be safe and to end, and no more.
#![tactic(auto)]

mod fault;
mod names;
mod playing;
mod words;

pub use fault::RowFault;
pub use names::Names;
pub use playing::{Rows, play_lines};
pub use words::bytes_of;
