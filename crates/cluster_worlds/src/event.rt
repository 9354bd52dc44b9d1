//! What may happen in a world.

use crate::inner::Inner;
use gum_messages::View;
use update_records::Update;
use wire_fields::Octets;

/// An event of a world. Nodes are numbered from 1 to 16, and messages from 1 in the order in which they were sent.
#[derive(Debug, Drop)]
pub enum Event {
    /// A node begins its next incarnation.
    Start(u16),
    /// A view is declared: it becomes the last one of the chain.
    Declare(View),
    /// A node hears of the declared view with this number.
    Install {
        node: u16,
        view: u32,
    },
    /// A client connects to a node. No connection had this number before, in any incarnation of any node.
    Connect {
        conn: u32,
        node: u16,
    },
    /// The next bytes of a connection's stream come.
    Bytes {
        conn: u32,
        piece: Octets,
    },
    /// A client hangs up.
    HangUp(u32),
    /// The message of this number comes, for the first time or again.
    Deliver(u64),
    /// Time passes at a node.
    Tick(u16),
    /// A node is told to write its registry into the log.
    Checkpoint(u16),
    /// The call of the disk with this number from now on fails, counted from 1.
    Fail(u32),
    /// A node dies.
    Die(u16),
    /// The clock of a node shows this stamp.
    Clock {
        node: u16,
        stamp: u64,
    },
    /// A batch is handed to a node, which no client sent.
    Batch {
        node: u16,
        update: Update,
    },
    /// A node dies inside an event, and all that it did but its calls of the disk is lost. The disk is left as a crash
    /// leaves it after the first `moment` calls of the event, or after all where there were fewer; what was pending then
    /// is filled by `bytes`.
    DieIn {
        moment: u32,
        bytes: Octets,
        inner: Inner,
    },
}
