//! The header in front of each PDU (C706 12.6.3.1).

ghost use Rattle.std.specs.Prelude.{◌≡◌, ◌≤◌, ◌+◌, ◌↔◌, ◌==◌, ◌||◌, IsTrue, length};
ghost use Rattle.wire_fields.specs.Reading.{number_in};
ghost use Rattle.rpc_pdu.specs.Flags.{flags_fit};
ghost use Rattle.rpc_pdu.specs.Header.{HeaderGives, order_with, peek_at};

use crate::head::Head;
use crate::pdu_fault::PduFault;
use crate::pdu_type::PduType;
use byteorder::{BigEndian, ByteOrder, LittleEndian};
use wire_fields::Endian;

/// How many bytes a header has.
pub(crate) const HEADER_LENGTH: usize = 16;
/// The major version of the protocol.
pub(crate) const VERSION: u8 = 5;
/// The first byte of a data representation with little-endian integers.
pub(crate) const LITTLE_ENDIAN_MARK: u8 = 0x10;
/// The same for big-endian integers.
const BIG_ENDIAN_MARK: u8 = 0x00;

/// How long the fragment at the front of a stream says that it is, once enough of it is there.
pub fn peek(bytes: &[u8]) -> Option<u16>
    ensures { result ≡ peek_at bytes.now }
{
    if bytes.len() < 10 {
        return None;
    }
    Some(u16_in(bytes, 8, endian_with(bytes[4])))
}

/// The type and the head of the fragment that these bytes are.
#[tactic(auto, unfolding(crate::specs::Header::header_fault, crate::specs::Header::head_at))]
pub(crate) fn header(bytes: &[u8]) -> Result<(PduType, Head), PduFault>
    ensures { HeaderGives result bytes.now }
{
    if bytes.len() < HEADER_LENGTH {
        return Err(PduFault::BadLength);
    }
    if bytes[0] != VERSION || bytes[1] > 1 {
        return Err(PduFault::BadVersion);
    }
    let Some(kind) = PduType::from_number(bytes[2]) else {
        return Err(PduFault::BadType);
    };
    if bytes[4] != LITTLE_ENDIAN_MARK && bytes[4] != BIG_ENDIAN_MARK {
        return Err(PduFault::BadRep);
    }
    let endian = endian_with(bytes[4]);
    if u16_in(bytes, 8, endian) as usize != bytes.len() {
        return Err(PduFault::BadLength);
    }
    if u16_in(bytes, 10, endian) != 0 {
        return Err(PduFault::HasAuth);
    }
    let head = Head {
        endian,
        minor: bytes[1],
        flags: bytes[3],
        call_id: u32_in(bytes, 12, endian),
    };
    if !fit(kind, &head) {
        return Err(PduFault::BadFlags);
    }
    Ok((kind, head))
}

/// Whether a PDU of this type may have these flags.
fn fit(kind: PduType, head: &Head) -> bool
    ensures { result ≡ flags_fit kind head.now.flags }
{
    match kind {
        PduType::Request => !head.has(Head::MAYBE),
        PduType::Bind
        | PduType::BindAck
        | PduType::BindNak
        | PduType::AlterContext
        | PduType::AlterContextResp => head.has(Head::ONE_FRAGMENT),
        PduType::Response
        | PduType::Fault
        | PduType::Shutdown
        | PduType::CoCancel
        | PduType::Orphaned => true,
    }
}

fn endian_with(mark: u8) -> Endian
    ensures { result ≡ order_with mark }
{
    if mark == LITTLE_ENDIAN_MARK {
        Endian::Little
    } else {
        Endian::Big
    }
}

#[tactic(auto, unfolding(wire_fields::specs::Numbers::number))]
fn u16_in(bytes: &[u8], place: usize, endian: Endian) -> u16
    requires { place + 2 ≤ length bytes.now }
    ensures { result ≡ number_in endian 2 place bytes.now }
{
    let field = &bytes[place..place + 2];
    match endian {
        Endian::Little => LittleEndian::read_u16(field),
        Endian::Big => BigEndian::read_u16(field),
    }
}

#[tactic(auto, unfolding(wire_fields::specs::Numbers::number))]
fn u32_in(bytes: &[u8], place: usize, endian: Endian) -> u32
    requires { place + 4 ≤ length bytes.now }
    ensures { result ≡ number_in endian 4 place bytes.now }
{
    let field = &bytes[place..place + 4];
    match endian {
        Endian::Little => LittleEndian::read_u32(field),
        Endian::Big => BigEndian::read_u32(field),
    }
}
