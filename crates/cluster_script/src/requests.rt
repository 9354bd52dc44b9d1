//! The requests of a script as bytes.

ghost use Rattle.std.specs.Prelude.{◌≡◌, ◌≤◌, IfOk, length};
ghost use Rattle.cluster_script.specs.Requests.{bind_text, request_text, request_with};

use rpc_pdu::{Head, Pdu, encode};
use std::alloc::{AllocError, Global};
use wire_fields::{Endian, Octets};

/// The bind of a client: ClusAPI with NDR, in fragments of 5,840 bytes.
const BIND: [u8; 72] = [
    5, 0, 11, 3, 16, 0, 0, 0, 72, 0, 0, 0, 1, 0, 0, 0, 208, 22, 208, 22, 0, 0, 0, 0, 1, 0, 0, 0, 0,
    0, 1, 0, 178, 184, 125, 185, 99, 76, 207, 17, 191, 246, 8, 0, 43, 226, 63, 47, 3, 0, 0, 0, 4,
    93, 136, 138, 235, 28, 201, 17, 159, 232, 8, 0, 43, 16, 72, 96, 2, 0, 0, 0,
];

/// The bind with which a client's connection begins.
#[tactic(auto, unfolding(crate::specs::Requests::bind_text))]
pub fn bind_bytes(alloc: Global) -> Result<Octets, AllocError>
    ensures { IfOk result (λ bytes. bytes ≡ bind_text) }
{
    Ok(Octets::new(BIND.to_vec(alloc)?))
}

/// A request in one fragment, on context 0.
#[tactic(auto, unfolding(crate::specs::Requests::request_text))]
pub fn request_bytes(
    alloc: Global,
    call_id: u32,
    opnum: u16,
    stub: &Octets,
) -> Result<Octets, AllocError>
    requires { length stub.now ≤ 5_816 }
    ensures { IfOk result (λ bytes. bytes ≡ request_text call_id opnum stub.now) }
{
    let request = request_with(alloc, call_id, opnum, stub)?;
    let bytes = encode(alloc, &request)?;
    Ok(Octets::new(bytes))
}

fn request_with(alloc: Global, call_id: u32, opnum: u16, stub: &Octets) -> Result<Pdu, AllocError>
    requires { length stub.now ≤ 5_816 }
    ensures { IfOk result (λ request. request ≡ request_with call_id opnum stub.now) }
{
    Ok(Pdu::Request {
        head: Head {
            endian: Endian::Little,
            minor: 0,
            flags: Head::ONE_FRAGMENT,
            call_id,
        },
        alloc_hint: stub.as_slice().len() as u32,
        context: 0,
        opnum,
        object: None,
        stub: stub.copy(alloc)?,
    })
}
