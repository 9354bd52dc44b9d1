ghost use Rattle.std.specs.Prelude.{◌≡◌};
ghost use Rattle.rpc_pdu.specs.Flags.{has_flag};

use wire_fields::Endian;

/// What a sender chooses in a PDU's header (C706 12.6.3.1). The version, the type and the two
/// lengths follow from the PDU.
#[derive(Clone, Copy, Debug, PartialEq, Eq)]
pub struct Head {
    /// The order of the bytes in each number of the PDU.
    pub endian: Endian,
    /// The minor version of the protocol, 0 or 1.
    pub minor: u8,
    pub flags: u8,
    pub call_id: u32,
}

impl Head {
    /// The fragment is the first one of its call.
    pub const FIRST_FRAGMENT: u8 = 0x01;
    /// The fragment is the last one of its call.
    pub const LAST_FRAGMENT: u8 = 0x02;
    /// The whole PDU is one fragment.
    pub const ONE_FRAGMENT: u8 = 0x03;
    /// A faulted call wasn't executed.
    pub const DID_NOT_EXECUTE: u8 = 0x20;
    /// The client wants no answer.
    pub const MAYBE: u8 = 0x40;
    /// The request names an object.
    pub const OBJECT: u8 = 0x80;

    /// Whether all bits of `flag` stand.
    pub fn has(&self, flag: u8) -> bool
        ensures { result ≡ has_flag self.now.flags flag }
    {
        self.flags & flag == flag
    }
}
