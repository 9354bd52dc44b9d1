/// What a bind_ack agreed on for the life of the association.
#[derive(Clone, Copy, Debug, PartialEq, Eq)]
pub struct Terms {
    /// The longest fragment that the server sends.
    pub max_xmit: u16,
    /// The longest fragment that the server asks the client to send.
    pub max_recv: u16,
    /// The association group.
    pub group: u32,
}
