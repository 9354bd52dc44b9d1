use ndr_values::WireHandle;

/// What a client awaits.
#[derive(Clone, Copy, Debug, PartialEq, Eq)]
pub enum Stage {
    /// The answer to the bind.
    Binding,
    /// The handle of the root.
    Rooting,
    /// Nothing: a command may be started.
    Resting,
    /// The answer to the first request of a command.
    Starting,
    /// The answer to its request on this key.
    Acting {
        key: WireHandle,
    },
    /// The entry of this key with this index, of so many.
    Listing {
        key: WireHandle,
        index: u32,
        count: u32,
    },
    /// The answer to the request that closes the key.
    Closing,
}
