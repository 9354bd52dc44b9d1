//! A client over one connection.

ghost use Rattle.std.specs.Prelude.{◌≡◌, ◌<◌, ◌≤◌, ◌++◌, ◌∷◌, [], List, ℕ, IfOk, IfSome, IsSome, OnErr, OnOk, true, false, length, option_to_list};
ghost use Rattle.client_commands.specs.declared.command.Command.{Command};
ghost use Rattle.client_commands.specs.Commands.{CommandFits};
ghost use Rattle.rpc_client.specs.declared.ask.Ask.{Ask};
ghost use Rattle.rpc_client.specs.declared.ask.Ask.TheVariants.{Write};
ghost use Rattle.rpc_client.specs.Clients.{FeedIs, Holds, IsAwaiting, IsIdle, IsIdleAfter, NextIs, TurnIs, end_of, new_client, told_by};
ghost use Rattle.rpc_client.specs.Progress.{IsOpenAfter, LeavesLess, TurnLeavesLess, to_feed, to_give};

use crate::ask::Ask;
use crate::client_fault::ClientFault;
use client_commands::Command;
use client_exchange::{Asking, Lines, Told, bind_text};
use rpc_calls::{FeedFault, Intake, IntakeFault, Item, Side};
use std::alloc::{AllocError, Global};
use std::marker::Model;
use wire_fields::Octets;

/// How much of the server's stream is looked at.
const MOST_STREAM: u64 = 1_073_741_824;
/// How many bytes of it may be unprocessed.
const MOST_UNPROCESSED: usize = 262_144;

/// A client over one connection: commands to requests, and replies to lines.
#[derive(Drop)]
pub struct Client {
    alloc: Global,
    opened: bool,
    asking: Asking,
    /// The lines that are still to be given, and the bytes behind them.
    lines: Lines,
    sent: Option<Octets>,
    intake: Intake,
    /// The item that was taken from the intake and isn't answered yet.
    item: Option<Item>,
    /// Whether the stream has bytes that aren't looked at.
    passed: bool,
}

impl Model for Client {
    ghost use Rattle.std.specs.Prelude.{◌≤◌};
    ghost use Rattle.rpc_calls.specs.Intakes.{stream_length};
    ghost use Rattle.rpc_client.specs.Exchange.{most_stream};
    ghost use Rattle.rpc_client.specs.Clients.{Kept};

    ghost Value = { Kept };

    ghost view = { λ client. record {
      opened = client.opened;
      asking = client.asking;
      lines = client.lines;
      sent = client.sent;
      intake = client.intake;
      item = client.item;
      passed = client.passed;
    } };

    ghost invariant = { λ client. stream_length client.intake ≤ most_stream };
}

impl Client {
    /// Takes no memory.
    pub fn new(alloc: Global) -> Client
        ensures starts { result ≡ new_client }
        ensures holds { Holds result [] [] [] }
    {
        Client {
            alloc,
            opened: false,
            asking: Asking::new(),
            lines: Lines::new(alloc),
            sent: None,
            intake: Intake::new(alloc, Side::Client),
            item: None,
            passed: false,
        }
    }

    /// The bind, once.
    pub fn open(&mut self) -> Result<Vec<u8>, AllocError>
        requires { self.old.opened ≡ false }
        ensures opened { OnOk result (self.new.opened ≡ true) }
        ensures holds { IfOk result (λ bytes. (commands : List Command) (stream : List ℕ) (given : List Ask) → Holds self.old commands stream given → Holds self.new commands stream (given ++ Write bytes.items ∷ [])) }
        ensures err { OnErr result (self.new ≡ self.old) }
    {
        let bytes = bind_text(self.alloc)?;
        self.opened = true;
        Ok(bytes)
    }

    /// The first request of a command.
    pub fn start(&mut self, command: Command) -> Result<Vec<u8>, AllocError>
        requires idle { IsIdle self.old }
        requires fits { CommandFits command }
        ensures opened { self.new.opened ≡ self.old.opened }
        ensures holds { IfOk result (λ bytes. (commands : List Command) (stream : List ℕ) (given : List Ask) → Holds self.old commands stream given → Holds self.new (commands ++ command ∷ []) stream (given ++ Write bytes.items ∷ [])) }
        ensures err { OnErr result (self.new ≡ self.old) }
    {
        let bytes = self.asking.start(self.alloc, command)?;
        Ok(bytes)
    }

    /// Takes in the next piece of the server's stream.
    pub fn feed(&mut self, piece: &[u8]) -> Result<(), FeedFault>
        ensures fed { FeedIs result self.old self.new piece.now }
        ensures opened { self.new.opened ≡ self.old.opened }
        ensures less { OnOk result (self.old.passed ≡ false → 0 < length piece.now → to_feed self.new < to_feed self.old) }
    {
        if piece.len() > MOST_UNPROCESSED - self.intake.unprocessed() {
            return Err(FeedFault::Backlog);
        }
        let room = (MOST_STREAM - self.intake.received()) as usize;
        if piece.len() <= room {
            return self.intake.feed(piece);
        }
        self.intake.feed(&piece[..room])?;
        self.passed = true;
        Ok(())
    }

    /// How long the stream is, as long as all of it is looked at.
    pub fn received(&self) -> u64
        ensures { (commands : List Command) (stream : List ℕ) (given : List Ask) → Holds self.now commands stream given → self.now.passed ≡ false → result ≡ length stream }
    {
        self.intake.received()
    }

    /// What is to be done next.
    pub fn next(&mut self) -> Result<Ask, ClientFault>
        requires { self.old.opened ≡ true }
        ensures next { NextIs result self.old self.new }
        ensures idle { IsIdleAfter result self.new }
        ensures opened { self.new.opened ≡ true }
        // It gives no more than the stream brought, and takes no more of the stream.
        ensures less { IfOk result (λ ask. LeavesLess ask self.old self.new) }
        ensures unfed { to_feed self.new ≡ to_feed self.old }
        ensures waits { IfOk result (λ ask. IsOpenAfter ask self.new) }
    {
        'turns: loop {
            match self.turn() {
                Ok(None) => {}
                Ok(Some(ask)) => return Ok(ask),
                Err(fault) => return Err(fault),
            }
        }
    }

    /// Gives what is to be given, or takes an item from the stream, or answers it.
    fn turn(&mut self) -> Result<Option<Ask>, ClientFault>
        requires { self.old.opened ≡ true }
        ensures turn { TurnIs result self.old self.new }
        ensures idle { IfOk result (λ ask. IfSome ask (λ ask. IsIdleAfter (Ok ask) self.new)) }
        ensures opened { self.new.opened ≡ true }
        ensures less { IfOk result (λ ask. TurnLeavesLess ask self.old self.new) }
        ensures unfed { to_feed self.new ≡ to_feed self.old }
        ensures waits { IfOk result (λ ask. IfSome ask (λ ask. IsOpenAfter ask self.new)) }
    {
        if let Some(line) = self.lines.pop() {
            return Ok(Some(Ask::Line(line)));
        }
        if let Some(bytes) = self.sent.take() {
            return Ok(Some(Ask::Write(bytes)));
        }
        if self.asking.is_resting() {
            return Ok(Some(Ask::Idle));
        }
        if self.item.is_none() {
            return self.fetch();
        }
        self.answer()
    }
    /// Takes the next item from the stream.
    fn fetch(&mut self) -> Result<Option<Ask>, ClientFault>
        requires awaits { IsAwaiting self.old }
        requires none { self.old.item ≡ None }
        ensures turn { TurnIs result self.old self.new }
        ensures idle { IfOk result (λ ask. IfSome ask (λ ask. IsIdleAfter (Ok ask) self.new)) }
        ensures opened { self.new.opened ≡ true }
        ensures less { IfOk result (λ ask. TurnLeavesLess ask self.old self.new) }
        ensures unfed { to_feed self.new ≡ to_feed self.old }
        ensures waits { IfOk result (λ ask. IfSome ask (λ ask. IsOpenAfter ask self.new)) }
    {
        match self.intake.next() {
            Ok(Some(item)) => {
                self.item = Some(item);
                Ok(None)
            }
            Ok(None) => self.at_end(),
            Err(IntakeFault::Memory) => Err(ClientFault::Memory),
            Err(IntakeFault::Pdu { place, .. }) => Err(ClientFault::BadReply { place }),
            Err(IntakeFault::Interleaved { place }) => Err(ClientFault::BadReply { place }),
            Err(IntakeFault::StubTooLong { place }) => Err(ClientFault::BadReply { place }),
        }
    }

    /// No further item is whole: more is awaited, unless the stream goes on past what is looked at.
    fn at_end(&self) -> Result<Option<Ask>, ClientFault>
        ensures { result ≡ end_of self.now.passed }
    {
        if self.passed {
            return Err(ClientFault::BadReply { place: MOST_STREAM });
        }
        Ok(Some(Ask::Wait))
    }

    /// Answers the item that was taken.
    fn answer(&mut self) -> Result<Option<Ask>, ClientFault>
        requires awaits { IsAwaiting self.old }
        requires some { IsSome self.old.item }
        ensures turn { TurnIs result self.old self.new }
        ensures idle { IfOk result (λ ask. IfSome ask (λ ask. IsIdleAfter (Ok ask) self.new)) }
        ensures opened { self.new.opened ≡ true }
        ensures less { IfOk result (λ ask. TurnLeavesLess ask self.old self.new) }
        ensures unfed { to_feed self.new ≡ to_feed self.old }
        ensures waits { IfOk result (λ ask. IfSome ask (λ ask. IsOpenAfter ask self.new)) }
    {
        let Some(item) = &self.item else {
            return Ok(None);
        };
        match self.asking.answer(self.alloc, item)? {
            Some(told) => {
                self.say(told);
                Ok(None)
            }
            None => Err(ClientFault::BadReply {
                place: self.intake.item_place(),
            }),
        }
    }

    fn say(&mut self, told: Told)
        ensures { self.new ≡ told_by self.old told.lines told.sent }
    {
        let Told { lines, sent } = told;
        self.lines = lines;
        self.sent = sent;
        self.item = None;
    }
}
