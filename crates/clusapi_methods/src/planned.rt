use clusapi_stubs::Out;
use context_handles::Held;
use ndr_values::WireHandle;
use update_records::Update;

/// What a call comes to.
#[derive(Debug, Drop)]
pub enum Planned {
    /// The results are known.
    Answer {
        out: Out,
        /// Whether they were read of the registry.
        reads: bool,
    },
    /// A handle is to be opened and answered.
    Open {
        opnum: u16,
        held: Held,
        /// Whether the registry was read.
        reads: bool,
    },
    /// The handle is to be closed.
    Close {
        opnum: u16,
        handle: WireHandle,
    },
    /// The update is to be made; `finish` gives the results.
    Send(Update),
    /// A fault with this status.
    Fault(u32),
}
