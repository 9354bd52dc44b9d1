//! The one interface that is served, and the one transfer syntax that it is served in.

ghost use Rattle.std.specs.Prelude.{◌≡◌};
ghost use Rattle.rpc_assoc.specs.Verdicts.{clusapi, ndr, no_syntax, same_syntax};

use rpc_pdu::Syntax;
use uuid::Uuid;

/// b97db8b2-4c63-11cf-bff6-08002be23f2f, version 3.0 ([MS-CMRP] 1.9).
#[tactic(auto, unfolding(crate::specs::Verdicts::clusapi))]
pub(crate) fn clusapi_syntax() -> Syntax
    ensures { result ≡ clusapi }
{
    Syntax {
        id: Uuid::from_bytes([
            0xb9, 0x7d, 0xb8, 0xb2, 0x4c, 0x63, 0x11, 0xcf, 0xbf, 0xf6, 0x08, 0x00, 0x2b, 0xe2,
            0x3f, 0x2f,
        ]),
        version: 3,
    }
}

/// 8a885d04-1ceb-11c9-9fe8-08002b104860, version 2.0 (C706, 14.2).
#[tactic(auto, unfolding(crate::specs::Verdicts::ndr))]
pub(crate) fn ndr_syntax() -> Syntax
    ensures { result ≡ ndr }
{
    Syntax {
        id: Uuid::from_bytes([
            0x8a, 0x88, 0x5d, 0x04, 0x1c, 0xeb, 0x11, 0xc9, 0x9f, 0xe8, 0x08, 0x00, 0x2b, 0x10,
            0x48, 0x60,
        ]),
        version: 2,
    }
}

/// What stands for the transfer syntax of a context that isn't accepted.
#[tactic(auto, unfolding(crate::specs::Verdicts::no_syntax))]
pub(crate) fn zero_syntax() -> Syntax
    ensures { result ≡ no_syntax }
{
    Syntax {
        id: Uuid::from_bytes([0; 16]),
        version: 0,
    }
}

#[tactic(auto, unfolding(crate::specs::Verdicts::same_syntax))]
pub(crate) fn is_same(a: &Syntax, b: &Syntax) -> bool
    ensures { result ≡ same_syntax a.now b.now }
{
    a.id.as_bytes() == b.id.as_bytes() && a.version == b.version
}
