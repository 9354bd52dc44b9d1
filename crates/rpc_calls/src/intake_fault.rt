use rpc_pdu::PduFault;

/// Why a stream has no further item. The place is that of the fragment's first byte in the stream.
#[derive(Clone, Copy, Debug, PartialEq, Eq)]
pub enum IntakeFault {
    /// A frame is no PDU.
    Pdu { place: u64, fault: PduFault },
    /// A fragment neither starts a call nor goes on with the one that is unfinished.
    Interleaved { place: u64 },
    /// A fragment makes the stub of its call longer than may be.
    StubTooLong { place: u64 },
    /// Memory ran out. The stream has an item there, or a fault of its own.
    Memory,
}
