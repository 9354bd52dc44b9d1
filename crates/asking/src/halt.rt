ghost use Rattle.std.specs.Prelude.{◌≡◌};

use rpc_client::ClientFault;

/// Why a conversation ends before it is done.
#[derive(Clone, Copy, Debug, PartialEq, Eq)]
pub(crate) enum Halt {
    ReadFault,
    WriteFault,
    NoMemory,
    BadReply { place: u64 },
}

impl From<ClientFault> for Halt {
    ghost use Rattle.asking.specs.Halting.{halt_of};

    ghost from_gives = { λ fault halt. halt ≡ halt_of fault };

    fn from(fault: ClientFault) -> Halt {
        match fault {
            ClientFault::BadReply { place } => Halt::BadReply { place },
            ClientFault::Memory => Halt::NoMemory,
        }
    }
}
