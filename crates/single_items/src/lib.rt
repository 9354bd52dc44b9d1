//! A node that is alone in its view, with one connection after the other: what the items of a client come to there (`alone`),
//! where the node stands between two of its events (`StandsAt`), and that each event leads it on as Alone says, whatever the
//! cut of the stream into pieces, also where the log is full or fails.
#![tactic(auto)]

mod connections;
mod events;
mod meaning;

pub use connections::{connects, ends, hangs_up, opens};
pub use events::{hears_message, hears_piece};
pub use meaning::{halts_alone, halts_because, order_goes_on, tells_alone, tells_first};
