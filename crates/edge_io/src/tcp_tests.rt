use crate::fake_net::{FakeClient, FakeNet};
use crate::{Door, Failed, TcpDoor};
use std::alloc::Global;
use std::io::ErrorKind;
use std::rc::Rc;
use std::test::Fail;

fn door<'a>(alloc: Global, net: &'a FakeNet, count: u32) -> Result<TcpDoor<'a, FakeNet>, Fail> {
    Ok(TcpDoor::at(net, String::from_str(alloc, "127.0.0.1:27110")?, count))
}

#[test]
fn a_connection_is_read_and_written_as_its_stream_gives_and_takes(
    rt: HostRuntime,
) -> Result<(), Fail> {
    let client = Rc::new(rt.alloc(), FakeClient::new(2))?;
    let net = FakeNet {
        client: client.clone()?,
    };
    let mut door = door(rt.alloc(), &net, 1)?;
    let mut into = [b'-'; 4];
    let accepted = door.accept();
    let limits = [client.read_limit.get(), client.write_limit.get()];
    let reads = [
        door.read(&mut into),
        door.read(&mut into),
        door.read(&mut into),
    ];
    let writes = [door.write(b"abc"), door.write(b"bc"), door.write(b"")];
    assert_eq!(rt; [accepted, door.accept()], [Ok(true), Ok(false)]);
    assert_eq!(rt; limits, [300, 300]);
    assert!(rt; client.no_delay.get());
    assert_eq!(rt; reads, [Ok(1), Ok(1), Ok(0)]);
    assert_eq!(rt; writes, [Ok(1), Ok(1), Ok(0)]);
    assert_eq!(rt; into, *b"x---");
    assert_eq!(rt;
        [
            client.got[0].get(),
            client.got[1].get(),
            client.got[2].get()
        ],
        *b"ab\0"
    );
    Ok(())
}

#[test]
fn a_connection_that_takes_nothing_fails(rt: HostRuntime) -> Result<(), Fail> {
    let client = Rc::new(rt.alloc(), FakeClient::new(0))?;
    let net = FakeNet {
        client: client.clone()?,
    };
    let mut door = door(rt.alloc(), &net, 1)?;
    let accepted = door.accept();
    client.got_count.set(8);
    assert_eq!(rt; [accepted, door.accept()], [Ok(true), Ok(false)]);
    assert_eq!(rt;
        [door.write(b"a"), door.read(&mut [0])],
        [Err(Failed), Err(Failed)]
    );
    Ok(())
}

#[test]
fn each_fault_of_a_stream_is_one_or_passes(rt: HostRuntime) -> Result<(), Fail> {
    for (kind, times, wanted) in [
        (ErrorKind::Interrupted, 1_023, Ok(1)),
        (ErrorKind::Interrupted, 1_024, Err(Failed)),
        (ErrorKind::WouldBlock, 1, Err(Failed)),
        (ErrorKind::ConnectionReset, 1, Err(Failed)),
        (ErrorKind::BrokenPipe, 1, Err(Failed)),
    ] {
        let client = Rc::new(rt.alloc(), FakeClient::new(9))?;
        let net = FakeNet {
            client: client.clone()?,
        };
        let mut door = door(rt.alloc(), &net, 1)?;
        let accepted = door.accept();
        client.fail(times, kind);
        let read = door.read(&mut [0; 4]);
        client.fail(times, kind);
        let written = door.write(b"abcd");
        assert_eq!(rt; accepted, Ok(true));
        assert_eq!(rt; [read, written], [wanted, wanted], "{times} times {kind:?}");
    }
    Ok(())
}

#[test]
fn an_accept_passes_over_connections_that_ended(rt: HostRuntime) -> Result<(), Fail> {
    for (kind, times, wanted) in [
        (ErrorKind::Interrupted, 5, Ok(true)),
        (ErrorKind::ConnectionAborted, 1_023, Ok(true)),
        (ErrorKind::ConnectionAborted, 1_024, Err(Failed)),
        (ErrorKind::ConnectionReset, 1, Ok(true)),
        (ErrorKind::NetworkDown, 1, Ok(true)),
        (ErrorKind::NetworkUnreachable, 1, Ok(true)),
        (ErrorKind::HostUnreachable, 1, Ok(true)),
        (ErrorKind::TimedOut, 1, Ok(true)),
        (ErrorKind::OutOfMemory, 1, Err(Failed)),
        (ErrorKind::Other, 1, Err(Failed)),
    ] {
        let client = Rc::new(rt.alloc(), FakeClient::new(0))?;
        let net = FakeNet {
            client: client.clone()?,
        };
        let mut door = door(rt.alloc(), &net, 1)?;
        let listens = door.listen();
        client.fail(times, kind);
        assert_eq!(rt; listens, Ok(()));
        assert_eq!(rt; door.accept(), wanted, "{times} times {kind:?}");
    }
    Ok(())
}

/// What is unread when a connection ends, how long a read takes, and how many reads there are then.
#[test]
fn a_connection_is_read_on_when_it_ends(rt: HostRuntime) -> Result<(), Fail> {
    for (unread, pace, reads, left) in [
        (0, 0, 1, 0),
        (5, 0, 6, 0),
        (1_023, 0, 1_024, 0),
        (5_000, 0, 1_024, 3_976),
        (5_000, 1, 2, 4_998),
        (5_000, 2, 1, 4_999),
    ] {
        let client = Rc::new(rt.alloc(), FakeClient::new(unread))?;
        let net = FakeNet {
            client: client.clone()?,
        };
        let mut door = door(rt.alloc(), &net, 1)?;
        let accepted = door.accept();
        client.pace.set(pace);
        door.hang_up();
        assert_eq!(rt; accepted, Ok(true));
        assert_eq!(rt;
            [client.ends.get(), client.reads.get(), client.sends.get()],
            [1, reads, left]
        );
        assert_eq!(rt; client.read_limit.get(), 2);
        assert_eq!(rt; door.write(b"a"), Err(Failed));
    }
    Ok(())
}
