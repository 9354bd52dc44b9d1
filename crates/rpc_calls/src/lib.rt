//! The byte stream of a connection as items: whole calls, joined from their fragments, and the
//! PDUs beside them (C706 chapter 12); and a request or a reply cut into fragments.
#![tactic(auto)]

mod call;
mod cutting;
mod feed_fault;
mod fragments;
mod intake;
mod intake_fault;
mod item;
mod laws;
mod replies;
mod requests;
mod sent;
mod side;
mod turn;

pub use call::Call;
pub use feed_fault::FeedFault;
pub use intake::Intake;
pub use intake_fault::IntakeFault;
pub use item::Item;
pub use laws::{
    calls_are_their_fragments, faults_stand, given_are_first, items_are_one, items_exist,
    length_is_known, replies_are_joined, requests_are_joined,
};
pub use replies::cut_reply;
pub use requests::cut_request;
pub use side::Side;

#[cfg(test)]
mod tests;
