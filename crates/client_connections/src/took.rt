//! What calls and items come to.

use crate::origin::Origin;
use clusapi_stubs::Out;
use rpc_calls::IntakeFault;
use update_records::Update;
use wire_fields::Octets;

/// What a call comes to.
#[derive(Debug, Drop)]
pub enum CallEnd {
    Results {
        out: Out,
        /// Whether they were read of the registry.
        reads: bool,
    },
    /// It isn't executed, for the reason that the status tells.
    Fault(u32),
    /// Its results wait for this update.
    Sends(Update),
}

/// What an item comes to.
#[derive(Debug, Drop)]
pub enum Took {
    Nothing,
    /// It is answered by these bytes.
    Reply { bytes: Octets, reads: bool },
    /// Its answer waits for the update.
    Queues { origin: Origin, update: Update },
}

/// Why a connection takes no further item.
#[derive(Clone, Copy, Debug, PartialEq, Eq)]
pub enum Ending {
    /// None is whole.
    Waits,
    /// Its stream has a fault here.
    Fails(IntakeFault),
    /// One of its calls waits for an update, or the node has taken as many items as it may.
    Rests,
}
