//! The bytes of the handles that a server makes.

ghost use Rattle.std.specs.Prelude.{◌≡◌, drop};
ghost use Rattle.wire_fields.specs.declared.endian.Endian.TheVariants.{Big};
ghost use Rattle.wire_fields.specs.Numbers.{number};
ghost use Rattle.context_handles.specs.Encoding.{handle_of, id_of, is_handle_of};

use byteorder::{BigEndian, ByteOrder};
use ndr_values::WireHandle;
use uuid::Uuid;

pub(crate) fn handle_of(node: u16, serial: u64) -> WireHandle
    ensures { result ≡ handle_of node serial }
{
    WireHandle {
        attributes: 0,
        id: id_of(node, serial),
    }
}

#[tactic(auto, unfolding(wire_fields::specs::Numbers::num))]
fn id_of(node: u16, serial: u64) -> Uuid
    ensures { result ≡ id_of node serial }
{
    let mut id = [0; 16];
    BigEndian::write_u32(&mut id[..4], u32::from(node));
    BigEndian::write_u64(&mut id[8..], serial);
    Uuid::from_bytes(id)
}

/// Whether the handle is the one that the node makes with this serial number.
pub(crate) fn is_handle_of(node: u16, handle: &WireHandle, serial: u64) -> bool
    ensures { result ≡ is_handle_of node handle.now serial }
{
    handle.attributes == 0 && handle.id.as_bytes() == id_of(node, serial).as_bytes()
}

/// The serial number of a handle that a node made.
#[tactic(auto, unfolding(wire_fields::specs::Numbers::number))]
pub(crate) fn serial_in(handle: &WireHandle) -> u64
    ensures { result ≡ number Big 8 (drop 8 handle.now.id) }
{
    BigEndian::read_u64(&handle.id.as_bytes()[8..])
}
