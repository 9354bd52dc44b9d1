//! What each method of ClusAPI does: the answer of a call, or what has to be done before it can be answered.
//!
//! [`plan`] checks a call and reads the registry for it, and changes nothing. Where the call updates the registry,
//! [`finish`] gives its results from the outcome.
#![tactic(auto)]

mod arguments;
mod fault;
mod finishing;
mod handles;
mod names;
mod planned;
mod planning;
mod reading;
mod refusals;
mod results;
mod statuses;
mod updating;

pub use clusapi_stubs::{In, InFault, Out, read_in, write_out};
pub use fault::fault_status;
pub use finishing::{closed, finish, finished, opened, opened_by};
pub use planned::Planned;
pub use planning::plan;
