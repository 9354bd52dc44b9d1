use super::*;
use std::test::*;
use uuid::Uuid;

/// The identifier 00010203-0405-0607-0809-0a0b0c0d0e0f (C706, appendix A).
const IDENTIFIER: [u8; 16] = [0, 1, 2, 3, 4, 5, 6, 7, 8, 9, 10, 11, 12, 13, 14, 15];

const LITTLE: [u8; 36] = [
    0x7f, 0, 0x34, 0x12, 0x78, 0x56, 0x34, 0x12, 0xef, 0xcd, 0xab, 0x90, 0x78, 0x56, 0x34, 0x12, 3,
    2, 1, 0, 5, 4, 7, 6, 8, 9, 10, 11, 12, 13, 14, 15, b'e', b'n', b'd', 0,
];

const BIG: [u8; 36] = [
    0x7f, 0, 0x12, 0x34, 0x12, 0x34, 0x56, 0x78, 0x12, 0x34, 0x56, 0x78, 0x90, 0xab, 0xcd, 0xef, 0,
    1, 2, 3, 4, 5, 6, 7, 8, 9, 10, 11, 12, 13, 14, 15, b'e', b'n', b'd', 0,
];

fn write_all(rt: &HostRuntime, endian: Endian) -> Result<Vec<u8>, Fail> {
    let mut put = Put::new(rt.alloc(), endian);
    put.u8(0x7f)?;
    put.align(2)?;
    put.u16(0x1234)?;
    put.u32(0x1234_5678)?;
    put.u64(0x1234_5678_90ab_cdef)?;
    put.uuid(&Uuid::from_bytes(IDENTIFIER))?;
    put.bytes(b"end")?;
    put.align(4)?;
    Ok(put.into_bytes())
}

#[test]
fn fields_are_written_in_either_order(rt: HostRuntime) -> Result<(), Fail> {
    assert_eq!(rt;
        write_all(&rt, Endian::Little)?.as_slice(),
        LITTLE.as_slice()
    );
    assert_eq!(rt; write_all(&rt, Endian::Big)?.as_slice(), BIG.as_slice());
    let mut octets = Octets::new(Vec::new(rt.alloc()));
    octets.append(&write_all(&rt, Endian::Big)?)?;
    assert_eq!(rt; octets.copy(rt.alloc())?.as_slice(), BIG.as_slice());
    Ok(())
}
