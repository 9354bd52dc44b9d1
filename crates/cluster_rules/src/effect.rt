//! What a node does.

use gum_messages::Message;
use wire_fields::Octets;

/// What a node does in an event.
#[derive(Debug, Drop)]
pub enum Effect {
    Send(Message),
    Reply {
        conn: u32,
        point: Option<u64>,
        bytes: Octets,
    },
    Closed {
        conn: u32,
        cause: CloseCause,
    },
    /// The head's update is acknowledged: in this view, with the place of its record.
    Acked {
        view: u32,
        place: u64,
    },
    Opened {
        view: u32,
    },
    Batched {
        req: u64,
        point: Option<u64>,
        status: u32,
        index: u32,
    },
    Halted(HaltCause),
}

/// Why a connection was closed.
#[derive(Clone, Copy, Debug, PartialEq, Eq)]
pub enum CloseCause {
    Peer,
    Pdu { place: u64 },
    Interleaved,
    StubTooLong,
    Backlog,
    Verifier,
    NodeStopped,
    Limit,
}

/// Why a node halted.
#[derive(Clone, Copy, Debug, PartialEq, Eq)]
pub enum HaltCause {
    Disk,
    Fenced { held: u32 },
    Image { place: u64 },
}
