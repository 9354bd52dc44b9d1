use wire_fields::{Endian, Octets};

/// What was sent of a call in one direction, whole: to a server the input of an operation, to a
/// client its output.
#[derive(Debug, Drop)]
pub struct Call {
    /// The presentation context on which the operation is called.
    pub context: u16,
    /// The number of the operation in its interface; 0 for an output, which doesn't tell it.
    pub opnum: u16,
    pub call_id: u32,
    /// The byte order of the parameters.
    pub endian: Endian,
    /// The parameters' bytes.
    pub stub: Octets,
}
