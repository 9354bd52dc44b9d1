//! The stubs of the methods of ClusAPI: the parameters that a client sends, and the results that it
//! is sent.
//!
//! For a server [`read_in`] reads the parameters of a method in the byte order of the call, and
//! [`write_out`] writes the results in their canonical encoding. For a client [`write_in`] writes the
//! parameters so, and [`read_out`] reads the results.
#![tactic(auto)]

mod asking;
mod fault;
mod input;
mod laws;
mod output;
mod parameters;
mod reading;
mod replies;
mod results;
mod returned;
mod values;
mod writing;

pub use asking::write_in;
pub use fault::InFault;
pub use input::In;
pub use laws::{parameters_are_read, results_are_read};
pub use output::Out;
pub use reading::read_in;
pub use replies::read_out;
pub use writing::write_out;
