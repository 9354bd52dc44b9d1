//! A request as a fragment, and bytes as the fragments in them.

ghost use Rattle.std.specs.Prelude.{◌<◌, ◌≤◌, length};

use row_words::RowFault;

/// The longest stub of one fragment.
const MOST_STUB: usize = 5816;

const HEADER: usize = 16;

/// Appends a request on context 0 that is one fragment.
pub(crate) fn add_request(
    into: &mut Vec<u8>,
    id: u32,
    opnum: u16,
    stub: &[u8],
) -> Result<(), RowFault> {
    if MOST_STUB < stub.len() {
        return Err(RowFault::Bad);
    }
    let count = stub.len() as u16;
    into.extend_from_slice(b"\x05\0\0\x03\x10\0\0\0")?;
    into.extend_from_slice(&(24 + count).to_le_bytes())?;
    into.extend_from_slice(b"\0\0")?;
    into.extend_from_slice(&id.to_le_bytes())?;
    into.extend_from_slice(&u32::from(count).to_le_bytes())?;
    into.extend_from_slice(b"\0\0")?;
    into.extend_from_slice(&opnum.to_le_bytes())?;
    into.extend_from_slice(stub)?;
    Ok(())
}

/// How many bytes the first fragment has; all of them where none is whole.
pub(crate) fn first_len(bytes: &[u8]) -> usize
    ensures within { result ≤ length bytes.now }
    ensures some { 0 < length bytes.now → 0 < result }
{
    if bytes.len() < HEADER {
        return bytes.len();
    }
    let stated = usize::from(u16::from_le_bytes([bytes[8], bytes[9]]));
    if stated < HEADER || bytes.len() < stated {
        return bytes.len();
    }
    stated
}
