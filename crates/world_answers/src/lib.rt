//! What the clients of every run are told is explained by the update order.
//!
//! Each incarnation of a node has a history in a run: the events that reach it, with what each told its clients. The laws say that every list of events
//! gives histories that the one update order explains.
#![tactic(auto)]

mod laws;

pub use laws::every_run_is_explained;
