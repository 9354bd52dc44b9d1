//! What a world tells of an event.

use cluster_rules::{CloseCause, HaltCause};
use gum_messages::Message;
use wire_fields::Octets;

/// What happened in an event, as whoever looks at the world sees it.
#[derive(Debug, Drop)]
pub enum Told {
    /// A record joined the update order: its sequence number and its encoding.
    Order {
        place: u64,
        spelling: Octets,
    },
    /// A message was sent. Messages are numbered from 1 in the order in which they are sent.
    Sent {
        number: u64,
        message: Message,
    },
    Reply {
        conn: u32,
        point: Option<u64>,
        bytes: Octets,
    },
    Closed {
        conn: u32,
        cause: CloseCause,
    },
    /// A node acknowledged an update: in this view, with the sequence number of its record.
    Acked {
        node: u16,
        view: u32,
        place: u64,
    },
    Opened {
        node: u16,
        view: u32,
    },
    Batched {
        node: u16,
        req: u64,
        point: Option<u64>,
        status: u32,
        index: u32,
    },
    Halted {
        node: u16,
        cause: HaltCause,
    },
}
