ghost use Rattle.std.specs.Prelude.{◌≡◌};
ghost use Rattle.rpc_client.specs.declared.client_fault.ClientFault.TheVariants.{Memory};

use std::alloc::AllocError;

/// Why a client can't go on.
#[derive(Clone, Copy, Debug, PartialEq, Eq)]
pub enum ClientFault {
    /// The server's stream isn't one that answers the client, from this place on.
    BadReply { place: u64 },
    /// Memory ran out.
    Memory,
}

impl From<AllocError> for ClientFault {
    ghost from_gives = { λ _ fault. fault ≡ Memory };

    fn from(_: AllocError) -> ClientFault {
        ClientFault::Memory
    }
}
