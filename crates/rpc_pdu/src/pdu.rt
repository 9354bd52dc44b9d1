ghost use Rattle.std.specs.Prelude.{◌≡◌};
ghost use Rattle.rpc_pdu.specs.PduTypes.{head_in, type_of};

use crate::head::Head;
use crate::pdu_type::PduType;
use crate::proposals::Proposals;
use crate::verdicts::Verdicts;
use crate::versions::Versions;
use uuid::Uuid;
use wire_fields::Octets;

/// A PDU of a connection: one fragment of a message (C706 12.6.4).
#[derive(Debug, Drop)]
pub enum Pdu {
    /// A fragment of a call's input.
    Request {
        head: Head,
        /// How many bytes of stub the receiver may expect, 0 for unknown.
        alloc_hint: u32,
        /// The presentation context.
        context: u16,
        /// The number of the operation in its interface.
        opnum: u16,
        object: Option<Uuid>,
        /// The parameters' bytes.
        stub: Octets,
    },
    /// A fragment of a call's output.
    Response {
        head: Head,
        alloc_hint: u32,
        context: u16,
        /// How many requests to cancel the call the server got.
        cancels: u8,
        /// The results' bytes.
        stub: Octets,
    },
    /// The call failed with this status.
    Fault {
        head: Head,
        alloc_hint: u32,
        context: u16,
        cancels: u8,
        status: u32,
    },
    /// A client opens an association, and proposes what it wants to speak there.
    Bind {
        head: Head,
        /// The longest fragment that the client sends.
        max_xmit: u16,
        /// The longest fragment that the client takes.
        max_recv: u16,
        /// The association group, 0 for a new one.
        group: u32,
        proposals: Proposals,
    },
    /// The server accepts the association.
    BindAck {
        head: Head,
        max_xmit: u16,
        max_recv: u16,
        group: u32,
        /// The secondary address.
        address: Octets,
        verdicts: Verdicts,
    },
    /// The server refuses the association.
    BindNak {
        head: Head,
        reason: u16,
        versions: Versions,
    },
    /// A client proposes further contexts.
    AlterContext {
        head: Head,
        max_xmit: u16,
        max_recv: u16,
        group: u32,
        proposals: Proposals,
    },
    /// The server answers to further contexts.
    AlterContextResp {
        head: Head,
        max_xmit: u16,
        max_recv: u16,
        group: u32,
        address: Octets,
        verdicts: Verdicts,
    },
    /// The server asks the client to close the connection.
    Shutdown {
        head: Head,
    },
    /// The client cancels a call.
    CoCancel {
        head: Head,
    },
    /// The client gives up a call.
    Orphaned {
        head: Head,
    },
}

impl Pdu {
    pub fn head(&self) -> Head
        ensures { result ≡ head_in self.now }
    {
        match self {
            Pdu::Request { head, .. }
            | Pdu::Response { head, .. }
            | Pdu::Fault { head, .. }
            | Pdu::Bind { head, .. }
            | Pdu::BindAck { head, .. }
            | Pdu::BindNak { head, .. }
            | Pdu::AlterContext { head, .. }
            | Pdu::AlterContextResp { head, .. }
            | Pdu::Shutdown { head }
            | Pdu::CoCancel { head }
            | Pdu::Orphaned { head } => *head,
        }
    }

    pub fn pdu_type(&self) -> PduType
        ensures { result ≡ type_of self.now }
    {
        match self {
            Pdu::Request { .. } => PduType::Request,
            Pdu::Response { .. } => PduType::Response,
            Pdu::Fault { .. } => PduType::Fault,
            Pdu::Bind { .. } => PduType::Bind,
            Pdu::BindAck { .. } => PduType::BindAck,
            Pdu::BindNak { .. } => PduType::BindNak,
            Pdu::AlterContext { .. } => PduType::AlterContext,
            Pdu::AlterContextResp { .. } => PduType::AlterContextResp,
            Pdu::Shutdown { .. } => PduType::Shutdown,
            Pdu::CoCancel { .. } => PduType::CoCancel,
            Pdu::Orphaned { .. } => PduType::Orphaned,
        }
    }
}
