use super::*;
use std::test::Fail;
use uuid::Uuid;
use wire_fields::{Endian, Fields, Put};

const HANDLE: [u8; 20] = [
    5, 0, 0, 0, 0x33, 0x22, 0x11, 0, 0x55, 0x44, 0x77, 0x66, 1, 2, 3, 4, 5, 6, 7, 8,
];

const ID: [u8; 16] = [
    0, 0x11, 0x22, 0x33, 0x44, 0x55, 0x66, 0x77, 1, 2, 3, 4, 5, 6, 7, 8,
];

#[test]
fn the_first_fault_of_a_string_is_told(rt: HostRuntime) -> Result<(), Fail> {
    for (little, big, want) in [
        (
            b"\x01\0\0\0\x01\0\0\0\x01\0\0\0\0\0\0\0".as_slice(),
            b"\0\0\0\x01\0\0\0\x01\0\0\0\x01\0\0\0\0".as_slice(),
            NdrFault::BadOffset { place: 4 },
        ),
        (
            b"\x01\0\0\0\0\0\0\0\x02\0\0\0\0\0\0\0".as_slice(),
            b"\0\0\0\x01\0\0\0\0\0\0\0\x02\0\0\0\0".as_slice(),
            NdrFault::BadCount { place: 8 },
        ),
        (
            b"\x01\0\0\0\0\0\0\0\x01\0\0\0\x41\0".as_slice(),
            b"\0\0\0\x01\0\0\0\0\0\0\0\x01\0\x41".as_slice(),
            NdrFault::NoEnd { place: 12 },
        ),
        (
            b"\x01\0\0\0\0\0\0\0\0\0\0\0".as_slice(),
            b"\0\0\0\x01\0\0\0\0\0\0\0\0".as_slice(),
            NdrFault::NoEnd { place: 8 },
        ),
        (
            b"\x02\0\0\0\0\0\0\0\x02\0\0\0\x41\0".as_slice(),
            b"\0\0\0\x02\0\0\0\0\0\0\0\x02\0\x41".as_slice(),
            NdrFault::Short { place: 12 },
        ),
        (
            b"\x02\0\0\0\0\0\0\0\x02\0\0".as_slice(),
            b"\0\0\0\x02\0\0\0\0\0\0\0".as_slice(),
            NdrFault::Short { place: 8 },
        ),
    ] {
        for (bytes, endian) in [(little, Endian::Little), (big, Endian::Big)] {
            let read = read_string(rt.alloc(), &mut Fields::new(bytes, endian));
            assert_eq!(rt; read.err(), Some(ReadFault::Ndr(want)), "{endian:?}");
        }
    }
    Ok(())
}

#[test]
fn a_string_ends_before_its_first_unit_0(rt: HostRuntime) -> Result<(), Fail> {
    let sent = b"\x05\0\0\0\0\0\0\0\x04\0\0\0A\0\xe9\0\0\0\0\0";
    let mut from = Fields::new(sent, Endian::Little);
    let text = read_string(rt.alloc(), &mut from).ok().ok_or("a text")?;
    assert_eq!(rt; text.as_slice(), [0x41, 0xe9].as_slice());
    assert_eq!(rt; from.left(), 0);
    Ok(())
}

#[test]
fn values_follow_one_another_behind_padding(rt: HostRuntime) -> Result<(), Fail> {
    let alloc = rt.alloc();
    let mut bytes = b"\x03\0\0\0abc-\0\0\x02\0".to_vec(alloc)?;
    bytes.extend_from_slice(&HANDLE)?;
    bytes.extend_from_slice(b"\x02\0\0\0\x01\0\0\0\0\0\0\0ab")?;
    let mut from = Fields::new(&bytes, Endian::Little);
    let array = read_bytes(alloc, &mut from).ok().ok_or("an array")?;
    assert_eq!(rt; array.as_slice(), b"abc".as_slice());
    assert_eq!(rt; read_pointer(&mut from), Ok(true));
    let handle = WireHandle {
        attributes: 5,
        id: Uuid::from_bytes(ID),
    };
    assert_eq!(rt; read_handle(&mut from), Ok(handle));
    assert_eq!(rt; read_time(&mut from), Ok(0x1_0000_0002));
    assert_eq!(rt; read_pointer(&mut from), Ok(false));
    assert_eq!(rt; read_number(&mut from), Err(NdrFault::Short { place: 44 }));

    // The padding itself is cut: the field would start past the end.
    let mut cut = Fields::new(b"\x01\0\0\0a", Endian::Little);
    assert!(rt; read_bytes(alloc, &mut cut).is_ok());
    assert_eq!(rt; read_handle(&mut cut), Err(NdrFault::Short { place: 8 }));
    Ok(())
}

#[test]
fn values_are_written_behind_zeros(rt: HostRuntime) -> Result<(), Fail> {
    let alloc = rt.alloc();
    let mut little = Put::new(alloc, Endian::Little);
    write_bytes(&mut little, b"a")?;
    write_string(&mut little, &[0x41, 0xe9])?;
    write_pointer(&mut little, 0x0002_0000)?;
    let handle = WireHandle {
        attributes: 5,
        id: Uuid::from_bytes(ID),
    };
    write_handle(&mut little, &handle)?;
    let mut want =
        b"\x01\0\0\0a\0\0\0\x03\0\0\0\0\0\0\0\x03\0\0\0A\0\xe9\0\0\0\0\0\0\0\x02\0".to_vec(alloc)?;
    want.extend_from_slice(&HANDLE)?;
    assert_eq!(rt; little.into_bytes(), want);

    let mut big = Put::new(alloc, Endian::Big);
    write_string(&mut big, &[])?;
    write_number(&mut big, 0x0102_0304)?;
    write_time(&mut big, 0x1_0000_0002)?;
    let want = b"\0\0\0\x01\0\0\0\0\0\0\0\x01\0\0\0\0\x01\x02\x03\x04\0\0\0\x02\0\0\0\x01";
    assert_eq!(rt; big.into_bytes().as_slice(), want.as_slice());
    Ok(())
}
