ghost use Rattle.std.specs.Prelude.{◌≡◌, ◌+◌, ◌<◌, ℕ, None, true, false, IsOk, IsErr};
ghost use Rattle.std.specs.Io.{ReadsAtMost, WritesAtMost};
ghost use Rattle.causes.specs.Counts.{HasCause};
ghost use Rattle.causes.specs.Writing.{TakesSome};

use crate::again::{MOST_TRIES, read_again, write_again};
use crate::{Door, Failed};
use std::io;
use std::io::{ErrorKind, Read};
use std::marker::Model;
use std::net::{Net, OpenListener, OpenStream, Shutdown, TcpListener, TcpStream};
use std::time::{Clock, Duration, Instant};

/// How many seconds a read or a write of a connection may wait for the client.
const MOST_WAIT: u64 = 300;

/// For how many seconds, and how many pieces, a connection is read on when it ends.
const MOST_PARTING: u64 = 2;

const MOST_PIECES: u32 = 1024;

/// The connections that come to a TCP address, up to a number of them; or the one connection that it
/// makes to an address. It tells nothing of what they hold.
///
/// A read or a write that waits for 300 seconds fails. What a signal interrupts is tried again, and so
/// is an `accept` that fails with the connection that was coming.
#[derive(Drop)]
pub struct TcpDoor<'a, R: Net + Clock> {
    runtime: &'a R,
    address: String,
    to_come: u32,
    dials: bool,
    listener: Option<R::Listener>,
    stream: Option<R::Stream>,
    failed_accepts: u64,
    failed_reads: u64,
    failed_writes: u64,
}

impl<'a, R: Net + Clock> Model for TcpDoor<'a, R> {
    ghost use Rattle.std.specs.Prelude.{is_some};
    ghost use Rattle.edge_io.specs.Tcp.{Tcp};

    ghost Value = { Tcp };

    ghost view = { λ d. record {
      faults = record { accept = d.failed_accepts; read = d.failed_reads; write = d.failed_writes };
      to_come = d.to_come;
      listens = is_some d.listener;
      connected = is_some d.stream;
      dials = d.dials;
    } };
}

impl<'a, R: Net + Clock> TcpDoor<'a, R> {
    ghost use Rattle.edge_io.specs.Tcp.{IsConnected, ListensOnly, fresh_dial, fresh_tcp};

    /// Listens at the address, and hands out so many connections. Makes no call of the system yet.
    pub fn at(runtime: &'a R, address: String, count: u32) -> TcpDoor<'a, R>
        ensures { result ≡ fresh_tcp count }
    {
        TcpDoor {
            runtime,
            address,
            to_come: count,
            dials: false,
            listener: None,
            stream: None,
            failed_accepts: 0,
            failed_reads: 0,
            failed_writes: 0,
        }
    }

    /// Hands out one connection, which its first `accept` makes to the address. Makes no call of the
    /// system yet.
    pub fn dial(runtime: &'a R, address: String) -> TcpDoor<'a, R>
        ensures { result ≡ fresh_dial }
    {
        TcpDoor {
            dials: true,
            ..TcpDoor::at(runtime, address, 1)
        }
    }

    /// Begins to listen, where it doesn't yet, and waits for nothing. A door that dials has nothing to
    /// listen for.
    pub fn listen(&mut self) -> Result<(), Failed>
        ensures cause { HasCause self.old.faults.accept self.new.faults.accept result }
        ensures listens { IsOk result → self.old.dials ≡ false → self.new.listens ≡ true }
        ensures others { ListensOnly self.old self.new }
    {
        if self.dials || self.listener.is_some() {
            return Ok(());
        }
        match TcpListener::bind(self.runtime, self.address.as_str()) {
            Ok(listener) => {
                self.listener = Some(listener);
                Ok(())
            }
            Err(_) => {
                self.failed_accepts = self.failed_accepts.saturating_add(1);
                Err(Failed)
            }
        }
    }

    /// Connects, and hands out none behind this one.
    fn connect(&mut self, behind: u32) -> Result<bool, Failed>
        requires dials { self.now.dials ≡ true }
        requires one { self.now.to_come ≡ behind + 1 }
        requires alone { self.now.connected ≡ false }
        ensures cause { HasCause self.old.faults.accept self.new.faults.accept result }
        ensures reads { self.new.faults.read ≡ self.old.faults.read }
        ensures writes { self.new.faults.write ≡ self.old.faults.write }
        ensures connected { IsConnected self.old result self.new }
        ensures way { self.new.dials ≡ self.old.dials }
    {
        match TcpStream::connect(self.runtime, self.address.as_str()) {
            Ok(stream) => {
                self.to_come = behind;
                self.stream = Some(prepared(stream));
                Ok(true)
            }
            Err(_) => {
                self.to_come = 0;
                self.failed_accepts = self.failed_accepts.saturating_add(1);
                Err(Failed)
            }
        }
    }

    /// The port that it listens at, for an address whose port is 0.
    pub fn port(&self) -> Option<u16> {
        match &self.listener {
            Some(listener) => listener.local_addr().ok().map(|address| address.port()),
            None => None,
        }
    }
}

impl<'a, R: Net + Clock> Door for TcpDoor<'a, R> {
    ghost use Rattle.std.specs.Prelude.{None};
    ghost use Rattle.edge_io.specs.Tcp.{IsAccepted, FailsOnly};

    ghost visits = { λ _. None };

    ghost faults = { λ d. d.faults };

    fn accept(&mut self) -> Result<bool, Failed>
        ensures cause { HasCause self.old.faults.accept self.new.faults.accept result }
        ensures reads { self.new.faults.read ≡ self.old.faults.read }
        ensures writes { self.new.faults.write ≡ self.old.faults.write }
        ensures accepted { IsAccepted self.old result self.new }
        ensures way { self.new.dials ≡ self.old.dials }
    {
        self.hang_up();
        let Some(behind) = self.to_come.checked_sub(1) else {
            return Ok(false);
        };
        if self.dials {
            return self.connect(behind);
        }
        self.listen()?;
        let accepted = match &self.listener {
            Some(listener) => accept_again(listener),
            None => Err(io::Error::from(ErrorKind::NotConnected)),
        };
        match accepted {
            Ok(stream) => {
                self.to_come = behind;
                self.stream = Some(prepared(stream));
                Ok(true)
            }
            Err(_) => {
                self.failed_accepts = self.failed_accepts.saturating_add(1);
                Err(Failed)
            }
        }
    }

    fn read(&mut self, into: &mut [u8]) -> Result<usize, Failed>
        ensures bound { ReadsAtMost result into.new }
        ensures accepts { self.new.faults.accept ≡ self.old.faults.accept }
        ensures cause { HasCause self.old.faults.read self.new.faults.read result }
        ensures writes { self.new.faults.write ≡ self.old.faults.write }
        ensures needs { self.old.connected ≡ false → IsErr result }
        ensures others { FailsOnly self.old self.new }
    {
        let done = match &mut self.stream {
            Some(stream) => read_again(stream, into),
            None => Err(io::Error::from(ErrorKind::NotConnected)),
        };
        match done {
            Ok(count) => Ok(count),
            Err(_) => {
                self.failed_reads = self.failed_reads.saturating_add(1);
                Err(Failed)
            }
        }
    }

    fn write(&mut self, bytes: &[u8]) -> Result<usize, Failed>
        ensures bound { WritesAtMost result bytes.now }
        ensures some { TakesSome result bytes.now }
        ensures accepts { self.new.faults.accept ≡ self.old.faults.accept }
        ensures reads { self.new.faults.read ≡ self.old.faults.read }
        ensures cause { HasCause self.old.faults.write self.new.faults.write result }
        ensures needs { self.old.connected ≡ false → IsErr result }
        ensures others { FailsOnly self.old self.new }
    {
        let done = match &mut self.stream {
            Some(stream) => write_again(stream, bytes),
            None => Err(io::Error::from(ErrorKind::NotConnected)),
        };
        match done {
            Ok(count) if 0 < count || bytes.is_empty() => Ok(count),
            _ => {
                self.failed_writes = self.failed_writes.saturating_add(1);
                Err(Failed)
            }
        }
    }

    fn hang_up(&mut self)
        ensures same { self.new.faults ≡ self.old.faults }
        ensures ended { self.new.connected ≡ false }
        ensures to_come { self.new.to_come ≡ self.old.to_come }
        ensures listens { self.new.listens ≡ self.old.listens }
        ensures way { self.new.dials ≡ self.old.dials }
    {
        if let Some(mut stream) = self.stream.take() {
            part(self.runtime, &mut stream);
        }
    }
}

/// Takes the next connection. What ended before it came is passed over.
fn accept_again<L: OpenListener>(listener: &L) -> io::Result<L::Stream> {
    for _ in 1..MOST_TRIES {
        match listener.accept() {
            Ok((stream, _)) => return Ok(stream),
            Err(error) if passes(error.kind()) => {}
            Err(error) => return Err(error),
        }
    }
    Ok(listener.accept()?.0)
}

/// Whether an `accept` that failed so is worth another: a signal came, or the fault is of the
/// connection that was coming, which accept(2) tells here.
fn passes(kind: ErrorKind) -> bool {
    match kind {
        ErrorKind::Interrupted => true,
        ErrorKind::ConnectionAborted => true,
        ErrorKind::ConnectionReset => true,
        ErrorKind::NetworkDown => true,
        ErrorKind::NetworkUnreachable => true,
        ErrorKind::HostUnreachable => true,
        ErrorKind::TimedOut => true,
        _ => false,
    }
}

/// A reply goes out at once, and neither a read nor a write waits for ever. A stream that can't be set
/// so serves all the same.
fn prepared<S: OpenStream>(stream: S) -> S {
    let _ = stream.set_nodelay(true);
    let _ = stream.set_read_timeout(Some(Duration::from_secs(MOST_WAIT)));
    let _ = stream.set_write_timeout(Some(Duration::from_secs(MOST_WAIT)));
    stream
}

/// Ends a connection so that its client gets all replies: the system throws away what the client
/// hasn't taken of them where a stream is dropped with bytes unread. So the client is told the end, and
/// what it still sends is read, for a while.
fn part<R: Clock, S: Read + OpenStream>(runtime: &R, stream: &mut S) {
    let while_left = Duration::from_secs(MOST_PARTING);
    let begin = Instant::now(runtime);
    let is_told = stream.shutdown(Shutdown::Write).is_ok();
    let is_bounded = stream.set_read_timeout(Some(while_left)).is_ok();
    let (Ok(begin), true, true) = (begin, is_told, is_bounded) else {
        return;
    };
    let mut unread = [0u8; 4096];
    for _ in 0..MOST_PIECES {
        match read_again(stream, &mut unread) {
            Ok(count) if 0 < count => {}
            _ => return,
        }
        match begin.elapsed(runtime) {
            Ok(time) if time < while_left => {}
            _ => return,
        }
    }
}
