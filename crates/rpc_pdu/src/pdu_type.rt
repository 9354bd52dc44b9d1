ghost use Rattle.std.specs.Prelude.{◌≡◌};
ghost use Rattle.rpc_pdu.specs.PduTypes.{type_number, type_with};

/// What a PDU is, its header's PTYPE (C706 12.6.4).
#[derive(Clone, Copy, Debug, PartialEq, Eq)]
pub enum PduType {
    Request,
    Response,
    Fault,
    Bind,
    BindAck,
    BindNak,
    AlterContext,
    AlterContextResp,
    Shutdown,
    CoCancel,
    Orphaned,
}

impl PduType {
    /// The type of a PDU with this PTYPE, if connections have one.
    pub fn from_number(number: u8) -> Option<PduType>
        ensures { result ≡ type_with number }
    {
        match number {
            0 => Some(PduType::Request),
            2 => Some(PduType::Response),
            3 => Some(PduType::Fault),
            11 => Some(PduType::Bind),
            12 => Some(PduType::BindAck),
            13 => Some(PduType::BindNak),
            14 => Some(PduType::AlterContext),
            15 => Some(PduType::AlterContextResp),
            17 => Some(PduType::Shutdown),
            18 => Some(PduType::CoCancel),
            19 => Some(PduType::Orphaned),
            _ => None,
        }
    }

    /// The PTYPE.
    pub fn number(self) -> u8
        ensures { result ≡ type_number self }
    {
        match self {
            PduType::Request => 0,
            PduType::Response => 2,
            PduType::Fault => 3,
            PduType::Bind => 11,
            PduType::BindAck => 12,
            PduType::BindNak => 13,
            PduType::AlterContext => 14,
            PduType::AlterContextResp => 15,
            PduType::Shutdown => 17,
            PduType::CoCancel => 18,
            PduType::Orphaned => 19,
        }
    }
}
