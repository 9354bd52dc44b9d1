//! A node that is alone in its view: the events of a node, as its code makes them, lead on as Alone says.
#![tactic(auto)]

mod delivering;
mod fault;
mod laws;
mod opening;
mod recording;
mod single;

pub use delivering::messages_are_delivered;
pub use fault::StartFault;
pub use laws::{bytes_lead, halt_leads, message_leads};
pub use opening::{connect_leads, hang_up_leads, opens_alone};
pub use recording::{logged_in_turn, next_record_is_alones, records_are_applied};
pub use single::{Single, halt_cause};
