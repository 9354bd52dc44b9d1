ghost use Rattle.std.specs.Prelude.{◌≡◌};

use super::*;
use std::test::Fail;
use uuid::Uuid;
use wire_fields::{Endian, Octets};

/// A bind to the ClusAPI interface over NDR, call 1.
const BIND: [u8; 72] = [
    0x05, 0x00, 0x0b, 0x03, 0x10, 0x00, 0x00, 0x00, 0x48, 0x00, 0x00, 0x00, 0x01, 0x00, 0x00, 0x00,
    0xd0, 0x16, 0xd0, 0x16, 0x00, 0x00, 0x00, 0x00, 0x01, 0x00, 0x00, 0x00, 0x00, 0x00, 0x01, 0x00,
    0xb2, 0xb8, 0x7d, 0xb9, 0x63, 0x4c, 0xcf, 0x11, 0xbf, 0xf6, 0x08, 0x00, 0x2b, 0xe2, 0x3f, 0x2f,
    0x03, 0x00, 0x00, 0x00, 0x04, 0x5d, 0x88, 0x8a, 0xeb, 0x1c, 0xc9, 0x11, 0x9f, 0xe8, 0x08, 0x00,
    0x2b, 0x10, 0x48, 0x60, 0x02, 0x00, 0x00, 0x00,
];

/// The answer to it.
const BIND_ACK: [u8; 56] = [
    0x05, 0x00, 0x0c, 0x03, 0x10, 0x00, 0x00, 0x00, 0x38, 0x00, 0x00, 0x00, 0x01, 0x00, 0x00, 0x00,
    0xd0, 0x16, 0xd0, 0x16, 0x01, 0x00, 0x00, 0x00, 0x00, 0x00, 0x00, 0x00, 0x01, 0x00, 0x00, 0x00,
    0x00, 0x00, 0x00, 0x00, 0x04, 0x5d, 0x88, 0x8a, 0xeb, 0x1c, 0xc9, 0x11, 0x9f, 0xe8, 0x08, 0x00,
    0x2b, 0x10, 0x48, 0x60, 0x02, 0x00, 0x00, 0x00,
];

/// The answer to a request of an operation that isn't there.
const FAULT: [u8; 32] = [
    0x05, 0x00, 0x03, 0x23, 0x10, 0x00, 0x00, 0x00, 0x20, 0x00, 0x00, 0x00, 0x02, 0x00, 0x00, 0x00,
    0x00, 0x00, 0x00, 0x00, 0x00, 0x00, 0x00, 0x00, 0x02, 0x00, 0x01, 0x1c, 0x00, 0x00, 0x00, 0x00,
];

/// The refusal of a bind, for no reason that is named.
const BIND_NAK: [u8; 21] = [
    0x05, 0x00, 0x0d, 0x03, 0x10, 0x00, 0x00, 0x00, 0x15, 0x00, 0x00, 0x00, 0x01, 0x00, 0x00, 0x00,
    0x00, 0x00, 0x01, 0x05, 0x00,
];

const CLUSAPI: [u8; 16] = [
    0xb9, 0x7d, 0xb8, 0xb2, 0x4c, 0x63, 0x11, 0xcf, 0xbf, 0xf6, 0x08, 0x00, 0x2b, 0xe2, 0x3f, 0x2f,
];

const NDR: [u8; 16] = [
    0x8a, 0x88, 0x5d, 0x04, 0x1c, 0xeb, 0x11, 0xc9, 0x9f, 0xe8, 0x08, 0x00, 0x2b, 0x10, 0x48, 0x60,
];

fn little(flags: u8, call_id: u32) -> Head
    ensures minor { result.minor ≡ 0 }
    ensures flags { result.flags ≡ flags }
{
    Head {
        endian: Endian::Little,
        minor: 0,
        flags,
        call_id,
    }
}

#[test]
fn a_bind_is_read(rt: HostRuntime) -> Result<(), Fail> {
    let Ok(
        Pdu::Bind {
            head,
            max_xmit,
            max_recv,
            group,
            proposals,
        },
    ) = decode(rt.alloc(), &BIND)
    else {
        return Err(Fail::new("not a bind"));
    };
    assert_eq!(rt; head, little(0x03, 1));
    assert_eq!(rt; (max_xmit, max_recv, group), (5840, 5840, 0));
    let [proposal] = proposals.as_slice() else {
        return Err(Fail::new("not one context"));
    };
    assert_eq!(rt; proposal.id, 0);
    assert_eq!(rt;
        proposal.abstract_syntax,
        Syntax {
            id: Uuid::from_bytes(CLUSAPI),
            version: 3
        }
    );
    let [transfer] = proposal.transfers.as_slice() else {
        return Err(Fail::new("not one transfer syntax"));
    };
    assert_eq!(rt;
        *transfer,
        Syntax {
            id: Uuid::from_bytes(NDR),
            version: 2
        }
    );
    assert_eq!(rt; peek(&BIND), Some(72));
    Ok(())
}

/// What a server of this protocol answers, as a real client takes it.
#[test]
fn answers_are_written(rt: HostRuntime) -> Result<(), Fail> {
    let ndr = Syntax {
        id: Uuid::from_bytes(NDR),
        version: 2,
    };
    let verdicts = vec![in rt.alloc();
        Verdict {
            result: 0,
            reason: 0,
            syntax: ndr
        },
    ]?;
    let ack = Pdu::BindAck {
        head: little(0x03, 1),
        max_xmit: 5840,
        max_recv: 5840,
        group: 1,
        address: Octets::new(Vec::new(rt.alloc())),
        verdicts: Verdicts::new(verdicts),
    };
    assert_eq!(rt; encode(rt.alloc(), &ack)?.as_slice(), BIND_ACK.as_slice());
    let nak = Pdu::BindNak {
        head: little(0x03, 1),
        reason: 0,
        versions: Versions::new(vec![in rt.alloc(); (5, 0)]?),
    };
    assert_eq!(rt; encode(rt.alloc(), &nak)?.as_slice(), BIND_NAK.as_slice());
    let fault = Pdu::Fault {
        head: little(0x23, 2),
        alloc_hint: 0,
        context: 0,
        cancels: 0,
        status: 0x1c01_0002,
    };
    assert_eq!(rt; encode(rt.alloc(), &fault)?.as_slice(), FAULT.as_slice());
    Ok(())
}

/// The bind with one byte changed.
#[test]
fn a_changed_bind_is_refused(rt: HostRuntime) {
    for (place, value, fault) in [
        (1, 0x02, PduFault::BadVersion),
        (2, 0x04, PduFault::BadType),
        (4, 0x11, PduFault::BadRep),
        (8, 0x47, PduFault::BadLength),
        (10, 0x08, PduFault::HasAuth),
        (3, 0x01, PduFault::BadFlags),
        (24, 0x02, PduFault::BadLength),
    ] {
        let mut bytes = BIND;
        if let Some(byte) = bytes.get_mut(place) {
            *byte = value;
        }
        assert_eq!(rt;
            decode(rt.alloc(), &bytes).err(),
            Some(fault),
            "byte {place}"
        );
    }
    assert_eq!(rt;
        decode(rt.alloc(), &BIND[..15]).err(),
        Some(PduFault::BadLength)
    );
}

/// Bytes behind a fault are its stub data, which nobody reads.
#[test]
fn bytes_behind_a_fault_are_ignored(rt: HostRuntime) -> Result<(), Fail> {
    let mut bytes = [0; 40];
    bytes[..32].copy_from_slice(&FAULT);
    bytes[8] = 0x28;
    let Ok(
        Pdu::Fault {
            head,
            alloc_hint,
            context,
            cancels,
            status,
        },
    ) = decode(rt.alloc(), &bytes)
    else {
        return Err(Fail::new("not a fault"));
    };
    assert_eq!(rt; head, little(0x23, 2));
    assert_eq!(rt;
        (alloc_hint, context, cancels, status),
        (0, 0, 0, 0x1c01_0002)
    );
    Ok(())
}
