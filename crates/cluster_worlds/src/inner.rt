//! The events inside which a node may die.

use wire_fields::Octets;

/// An event inside which a node may die; each is as the [`Event`](crate::Event) of its name.
#[derive(Debug, Drop)]
pub enum Inner {
    Install { node: u16, view: u32 },
    Bytes { conn: u32, piece: Octets },
    HangUp(u32),
    Deliver(u64),
    Tick(u16),
    Checkpoint(u16),
}
