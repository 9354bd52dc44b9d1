//! What the clients of a node queue are updates: valid, and with the fields that the types of the code hold, whatever
//! bytes their streams have.
#![tactic(auto)]

mod laws;

pub use laws::clients_stay_typed;
