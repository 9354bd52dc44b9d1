//! Associations of connection-oriented DCE/RPC: which contexts a client may use, and the answer to
//! each item of its stream but that of an operation itself (C706 chapter 12).
#![tactic(auto)]

mod answers;
mod assoc;
mod laws;
mod syntaxes;
mod terms;
mod verdicts;

pub use answers::fault;
pub use assoc::{Assoc, AssocOut};
pub use laws::contexts_are_accepted_as_told;
pub use terms::Terms;
