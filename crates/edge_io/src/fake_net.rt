//! A network of one client, for tests. It gives and takes one byte at a time, notes what its connection was told, has a
//! clock that a test turns, and answers calls by errors of the test's choice.

use std::cell::Cell;
use std::io;
use std::io::{Error, ErrorKind, Read, Write};
use std::net::{Net, OpenListener, OpenStream, Shutdown, SocketAddr};
use std::os::fd::{AsRawFd, RawFd};
use std::rc::Rc;
use std::time::{Clock, Duration};

/// How many bytes of the server the client notes.
pub(crate) const ROOM: usize = 8;

/// The client, and what becomes of its connection.
#[derive(Drop)]
pub(crate) struct FakeClient {
    /// How many bytes it sends, each the letter x.
    pub(crate) sends: Cell<u32>,
    /// What it got.
    pub(crate) got: [Cell<u8>; ROOM],
    pub(crate) got_count: Cell<usize>,
    /// How often its end was told.
    pub(crate) ends: Cell<u32>,
    pub(crate) accepts: Cell<u32>,
    pub(crate) reads: Cell<u32>,
    pub(crate) no_delay: Cell<bool>,
    /// The limits of time in seconds, 0 for none.
    pub(crate) read_limit: Cell<u64>,
    pub(crate) write_limit: Cell<u64>,
    /// How many seconds a read takes.
    pub(crate) pace: Cell<u64>,
    pub(crate) seconds: Cell<u64>,
    /// How many of the next calls fail, and how.
    pub(crate) failing: Cell<u32>,
    pub(crate) kind: Cell<ErrorKind>,
}

impl FakeClient {
    pub(crate) fn new(sends: u32) -> FakeClient {
        FakeClient {
            sends: Cell::new(sends),
            got: [
                Cell::new(0),
                Cell::new(0),
                Cell::new(0),
                Cell::new(0),
                Cell::new(0),
                Cell::new(0),
                Cell::new(0),
                Cell::new(0),
            ],
            got_count: Cell::new(0),
            ends: Cell::new(0),
            accepts: Cell::new(0),
            reads: Cell::new(0),
            no_delay: Cell::new(false),
            read_limit: Cell::new(0),
            write_limit: Cell::new(0),
            pace: Cell::new(0),
            seconds: Cell::new(0),
            failing: Cell::new(0),
            kind: Cell::new(ErrorKind::Other),
        }
    }

    /// So many of the next calls fail so.
    pub(crate) fn fail(&self, times: u32, kind: ErrorKind) {
        self.failing.set(times);
        self.kind.set(kind);
    }

    fn call(&self) -> io::Result<()> {
        match self.failing.get().checked_sub(1) {
            Some(left) => {
                self.failing.set(left);
                Err(Error::from(self.kind.get()))
            }
            None => Ok(()),
        }
    }
}

/// The network over it.
#[derive(Drop)]
pub(crate) struct FakeNet {
    pub(crate) client: Rc<FakeClient>,
}

#[derive(Drop)]
pub(crate) struct FakeListener {
    client: Rc<FakeClient>,
    address: SocketAddr,
}

#[derive(Drop)]
pub(crate) struct FakeStream {
    client: Rc<FakeClient>,
}

fn shared(client: &Rc<FakeClient>) -> io::Result<Rc<FakeClient>> {
    client
        .clone()
        .map_err(|_| Error::from(ErrorKind::OutOfMemory))
}

fn raise(count: &Cell<u32>) {
    count.set(count.get().saturating_add(1));
}

impl Net for FakeNet {
    type Stream = FakeStream;

    type Listener = FakeListener;

    fn bind(&self, addr: SocketAddr) -> io::Result<FakeListener> {
        self.client.call()?;
        Ok(FakeListener {
            client: shared(&self.client)?,
            address: addr,
        })
    }

    fn connect(&self, _addr: SocketAddr) -> io::Result<FakeStream> {
        self.client.call()?;
        Ok(FakeStream {
            client: shared(&self.client)?,
        })
    }
}

impl Clock for FakeNet {
    fn monotonic(&self) -> io::Result<Duration> {
        Ok(Duration::from_secs(self.client.seconds.get()))
    }

    fn since_1970(&self) -> io::Result<Duration> {
        Ok(Duration::from_secs(self.client.seconds.get()))
    }
}

impl OpenListener for FakeListener {
    type Stream = FakeStream;

    fn accept(&self) -> io::Result<(FakeStream, SocketAddr)> {
        raise(&self.client.accepts);
        self.client.call()?;
        let stream = FakeStream {
            client: shared(&self.client)?,
        };
        Ok((stream, self.address))
    }
}

impl AsRawFd for FakeListener {
    fn as_raw_fd(&self) -> RawFd {
        -1
    }
}

impl AsRawFd for FakeStream {
    fn as_raw_fd(&self) -> RawFd {
        -1
    }
}

impl OpenStream for FakeStream {
    fn shutdown(&self, how: Shutdown) -> io::Result<()> {
        if how == Shutdown::Write {
            raise(&self.client.ends);
        }
        Ok(())
    }

    fn set_nodelay(&self, nodelay: bool) -> io::Result<()> {
        self.client.no_delay.set(nodelay);
        Ok(())
    }

    fn set_read_timeout(&self, dur: Option<Duration>) -> io::Result<()> {
        self.client
            .read_limit
            .set(dur.map_or(0, |limit| limit.as_secs()));
        Ok(())
    }

    fn set_write_timeout(&self, dur: Option<Duration>) -> io::Result<()> {
        self.client
            .write_limit
            .set(dur.map_or(0, |limit| limit.as_secs()));
        Ok(())
    }
}

impl Read for FakeStream {
    fn read(&mut self, buf: &mut [u8]) -> io::Result<usize> {
        raise(&self.client.reads);
        self.client.call()?;
        let now = self.client.seconds.get();
        self.client
            .seconds
            .set(now.saturating_add(self.client.pace.get()));
        match (self.client.sends.get().checked_sub(1), buf.first_mut()) {
            (Some(left), Some(first)) => {
                self.client.sends.set(left);
                *first = b'x';
                Ok(1)
            }
            _ => Ok(0),
        }
    }
}

impl Write for FakeStream {
    fn write(&mut self, buf: &[u8]) -> io::Result<usize> {
        self.client.call()?;
        let count = self.client.got_count.get();
        match (self.client.got.get(count), buf.first()) {
            (Some(place), Some(first)) => {
                place.set(*first);
                self.client.got_count.set(count.saturating_add(1));
                Ok(1)
            }
            _ => Ok(0),
        }
    }

    fn flush(&mut self) -> io::Result<()> {
        Ok(())
    }
}
