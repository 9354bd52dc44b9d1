use super::*;
use std::alloc::Global;
use std::io::{Cursor, Read, Write};
use std::net::{Ipv4Addr, SocketAddr, TcpStream};
use std::test::Fail;

/// What is read of a source of seven bytes that come in pieces of three, one of whose calls fails.
fn whole(alloc: Global, most: usize, failing: u32) -> Result<ReadAll, Fail> {
    let bytes = b"abcdefg".to_vec(alloc)?;
    let mut source = BytesSource::new(bytes, 3, [failing].to_vec(alloc)?);
    Ok(read_whole(alloc, &mut source, most))
}

fn text_of(got: &ReadAll) -> &[u8] {
    match got {
        ReadAll::Bytes(bytes) => bytes.as_slice(),
        ReadAll::TooLong => b"too long",
        ReadAll::Failed => b"failed",
        ReadAll::Memory => b"memory",
    }
}

#[test]
fn a_source_is_read_to_its_end_or_told_too_long(rt: HostRuntime) -> Result<(), Fail> {
    for (most, failing, want) in [
        (8, 9, "abcdefg"),
        (7, 9, "abcdefg"),
        (6, 9, "too long"),
        (0, 9, "too long"),
        (7, 1, "failed"),
        (7, 4, "failed"),
        (6, 3, "failed"),
    ] {
        let got = whole(rt.alloc(), most, failing)?;
        assert_eq!(rt;
            text_of(&got),
            want.as_bytes(),
            "at most {most}, call {failing} fails"
        );
    }
    Ok(())
}

#[test]
fn a_sure_source_is_read_whole(rt: HostRuntime) -> Result<(), Fail> {
    let alloc = rt.alloc();
    let mut sure = SureSource::new(vec![in alloc; b'x'; 10_000]?);
    let got = read_whole(alloc, &mut sure, 10_000);
    assert_eq!(rt; text_of(&got), [b'x'; 10_000].as_slice());
    Ok(())
}

#[test]
fn a_sure_sink_tells_up_to_its_room(rt: HostRuntime) -> Result<(), Fail> {
    let alloc = rt.alloc();
    let full = vec![in alloc; 7; 16_777_215]?;
    let mut sink = SureSink::new(alloc)?;
    for (bytes, told) in [
        (full.as_slice(), true),
        (b"a", true),
        (b"", true),
        (b"b", false),
        (b"", false),
    ] {
        assert_eq!(rt; sink.write(bytes), Ok(bytes.len()));
        assert_eq!(rt; sink.written().is_some(), told);
    }
    Ok(())
}

#[test]
fn std_readers_and_writers_are_sources_and_sinks(rt: HostRuntime) -> Result<(), Fail> {
    let alloc = rt.alloc();
    let mut source = StdSource::new(Cursor::new(b"abcdefg".to_vec(alloc)?));
    let got = read_whole(alloc, &mut source, 7);
    assert_eq!(rt; text_of(&got), b"abcdefg".as_slice());
    let mut bytes = Vec::new(alloc);
    let written = write_whole(&mut StdSink::new(&mut bytes), b"abc");
    // A writer without room takes 0 bytes, which is a fault.
    let mut room = [b'-'; 2];
    let cut = write_whole(&mut StdSink::new(room.as_mut_slice()), b"abc");
    assert_eq!(rt; [written, cut], [Ok(()), Err(Failed)]);
    assert_eq!(rt; bytes.as_slice(), b"abc".as_slice());
    assert_eq!(rt; room.as_slice(), b"ab".as_slice());
    Ok(())
}

#[test]
fn a_tcp_door_hands_out_its_connections(rt: HostRuntime) -> Result<(), Fail> {
    let address = String::from_str(rt.alloc(), "127.0.0.1:0")?;
    let mut door = TcpDoor::at(&rt, address, 1);
    assert_eq!(rt; door.listen(), Ok(()));
    let port = door.port().ok_or("a port")?;
    let mut client = TcpStream::connect(&rt, SocketAddr::from((Ipv4Addr::LOCALHOST, port)))?;
    let (mut came, mut sent) = ([b'-'; 4], [b'-'; 4]);
    client.write_all(b"abc")?;
    let accepted = door.accept();
    let moved = [door.read(&mut came), door.write(b"de")];
    let count = client.read(&mut sent)?;
    door.hang_up();
    let ended = [client.read(&mut sent)?, door.read(&mut came).unwrap_or(9)];
    assert_eq!(rt; [accepted, door.accept()], [Ok(true), Ok(false)]);
    assert_eq!(rt; moved, [Ok(3), Ok(2)]);
    assert_eq!(rt; [&came, &sent], [b"abc-", b"de--"]);
    assert_eq!(rt; count, 2);
    assert_eq!(rt; ended, [0, 9]);
    Ok(())
}

#[test]
fn a_tcp_door_without_an_address_fails(rt: HostRuntime) -> Result<(), Fail> {
    let mut door = TcpDoor::at(&rt, String::new(rt.alloc()), 1);
    let mut none = TcpDoor::at(&rt, String::new(rt.alloc()), 0);
    let mut dialing = TcpDoor::dial(&rt, String::new(rt.alloc()));
    assert_eq!(rt; [door.accept(), none.accept()], [Err(Failed), Ok(false)]);
    assert_eq!(rt;
        [dialing.accept(), dialing.accept()],
        [Err(Failed), Ok(false)]
    );
    Ok(())
}

#[test]
fn a_tcp_door_dials_once(rt: HostRuntime) -> Result<(), Fail> {
    let address = String::from_str(rt.alloc(), "127.0.0.1:0")?;
    let mut server = TcpDoor::at(&rt, address, 1);
    assert_eq!(rt; server.listen(), Ok(()));
    let port = server.port().ok_or("a port")?;
    let mut client = TcpDoor::dial(&rt, format!(in rt.alloc(); "127.0.0.1:{port}")?);
    let met = [client.accept(), server.accept()];
    let mut came = [b'-'; 4];
    let moved = [client.write(b"abc"), server.read(&mut came)];
    assert_eq!(rt; met, [Ok(true), Ok(true)]);
    assert_eq!(rt; moved, [Ok(3), Ok(3)]);
    assert_eq!(rt; &came, b"abc-");
    assert_eq!(rt; client.accept(), Ok(false));
    Ok(())
}
