//! The receiving end of a connection.

ghost use Rattle.std.specs.Prelude.{◌≡◌, ◌+◌, ◌<◌, ◌≤◌, ◌^◌, List, [], ℕ, length, IfErr, IfOk, IfSome, OnOk, ◌++◌};
ghost use Rattle.rpc_calls.specs.declared.item.Item.{Item};
ghost use Rattle.rpc_calls.specs.Assembly.{most_stub, stub_length};
ghost use Rattle.rpc_calls.specs.Intakes.{CountsRest, FeedIs, FewWait, GivesAgain, Holds, KeepsFault, NextIs, NoMemoryInside, NumbersAre, Stays, fresh, most_unprocessed, stream_length};
ghost use Rattle.rpc_calls.specs.Parts.{ItemFits};
ghost use Rattle.rpc_calls.specs.Turns.{TurnIs, refused, reported};

use crate::call::Call;
use crate::feed_fault::FeedFault;
use crate::fragments::{Cut, first_cut, take_frame};
use crate::intake_fault::IntakeFault;
use crate::item::Item;
use crate::side::Side;
use crate::turn::Turn;
use bytes::BytesMut;
use rpc_pdu::PduFault;
use std::alloc::Global;
use std::marker::Model;

/// How many bytes may be unprocessed.
const MOST_UNPROCESSED: usize = 262_144;

/// Takes the stream of one end of a connection in pieces, cut anywhere, and gives its items.
#[derive(Drop)]
pub struct Intake {
    alloc: Global,
    side: Side,
    /// The bytes behind the frames that were taken.
    rest: BytesMut,
    /// The call that these frames leave unfinished.
    left: Option<Call>,
    /// Where the rest stands in the stream.
    place: u64,
    /// Where the fragment stands that was taken last.
    last_place: u64,
    /// The fault that the stream has there, once it was found.
    fault: Option<IntakeFault>,
    unprocessed: usize,
    unfinished: usize,
}

impl Model for Intake {
    ghost use Rattle.std.specs.Prelude.{◌+◌, ◌<◌, ◌≤◌, ◌^◌, length};
    ghost use Rattle.rpc_calls.specs.Assembly.{most_stub, stub_length};
    ghost use Rattle.rpc_calls.specs.Intakes.{Kept, LastsIfAny, most_unprocessed};

    ghost Value = { Kept };

    ghost view = { λ intake. record {
      side = intake.side;
      rest = intake.rest.items;
      left = intake.left;
      place = intake.place;
      last_place = intake.last_place;
      fault = intake.fault;
      unprocessed = intake.unprocessed;
      unfinished = intake.unfinished;
    } };

    ghost invariant = { λ intake.
        (intake.place + length intake.rest.items < 2 ^ 64)
        × (length intake.rest.items ≤ intake.unprocessed)
        × (intake.unprocessed ≤ most_unprocessed)
        × (stub_length intake.left ≤ most_stub)
        × (intake.unfinished ≤ most_stub)
        × LastsIfAny intake.fault };
}

impl Intake {
    /// Takes no memory.
    pub fn new(alloc: Global, side: Side) -> Intake
        ensures starts { result ≡ fresh side }
        ensures holds { Holds result [] [] }
    {
        Intake {
            alloc,
            side,
            rest: BytesMut::new(alloc),
            left: None,
            place: 0,
            last_place: 0,
            fault: None,
            unprocessed: 0,
            unfinished: 0,
        }
    }

    /// Takes in the next piece of the stream.
    pub fn feed(&mut self, piece: &[u8]) -> Result<(), FeedFault>
        requires { stream_length self.old + length piece.now < 2 ^ 64 }
        ensures fed { FeedIs result self.old self.new piece.now }
        ensures holds { OnOk result ((stream : List ℕ) (given : List Item) → Holds self.old stream given → Holds self.new (stream ++ piece.now) given) }
    {
        self.take_in(piece)
    }

    /// The next item of the stream; `None` where it isn't whole yet.
    pub fn next(&mut self) -> Result<Option<Item>, IntakeFault>
        ensures gives { NextIs result self.old self.new }
        ensures inside { IfErr result (λ fault. NoMemoryInside fault) }
        ensures keeps { KeepsFault result self.new }
        ensures again { GivesAgain result self.old }
        ensures numbers { NumbersAre result self.old self.new }
        ensures stays { Stays self.old self.new }
        ensures few { IfOk result (λ item. IfSome item ItemFits) }
        ensures waits { FewWait result self.new }
        ensures counts { CountsRest result self.new }
        // An item takes its frame, at the least, from the bytes that are kept.
        ensures shorter { IfOk result (λ item. IfSome item (λ _. length self.new.rest < length self.old.rest)) }
    {
        if let Some(fault) = self.fault {
            return Err(fault);
        }
        'frames: loop {
            match self.turn() {
                Ok(Turn::Waits) => {
                    self.report();
                    return Ok(None);
                }
                Ok(Turn::Went(None)) => {}
                Ok(Turn::Went(Some(item))) => {
                    self.report();
                    return Ok(Some(item));
                }
                Err(fault) => return Err(fault),
            }
        }
    }

    /// How many bytes of the stream were taken in.
    pub fn received(&self) -> u64
        ensures { result ≡ stream_length self.now }
    {
        self.place + self.rest.len() as u64
    }

    /// Where the last fragment stands in the stream of the item that was given last.
    pub fn item_place(&self) -> u64
        ensures { result ≡ self.now.last_place }
    {
        self.last_place
    }

    /// How many bytes of the stream lie behind the frame of the last item, or where `next` stopped.
    pub fn unprocessed(&self) -> usize
        ensures value { result ≡ self.now.unprocessed }
        ensures bound { result ≤ most_unprocessed }
    {
        self.unprocessed
    }

    /// How long the stub is of the call that the frames before these bytes leave unfinished, 0 for none.
    pub fn unfinished(&self) -> usize
        ensures value { result ≡ self.now.unfinished }
        ensures bound { result ≤ most_stub }
    {
        self.unfinished
    }

    fn take_in(&mut self, piece: &[u8]) -> Result<(), FeedFault>
        requires { stream_length self.old + length piece.now < 2 ^ 64 }
        ensures { FeedIs result self.old self.new piece.now }
    {
        if piece.len() > MOST_UNPROCESSED - self.unprocessed {
            return Err(FeedFault::Backlog);
        }
        self.rest.extend_from_slice(piece)?;
        self.unprocessed += piece.len();
        Ok(())
    }

    /// Takes one frame in, if a whole one is there. After a fault the same is kept, but where memory
    /// ran out.
    fn turn(&mut self) -> Result<Turn, IntakeFault>
        requires { self.old.fault ≡ None }
        ensures { TurnIs result self.old self.new }
    {
        let size = match first_cut(self.rest.as_slice()) {
            Cut::Waits => return Ok(Turn::Waits),
            Cut::TooShort => {
                let fault = IntakeFault::Pdu {
                    place: self.place,
                    fault: PduFault::BadLength,
                };
                self.refuse(fault);
                return Err(fault);
            }
            Cut::Frame(size) => size,
        };
        let frame = &self.rest.as_slice()[..size];
        let item = match take_frame(self.alloc, self.side, frame, &mut self.left, self.place) {
            Ok(item) => item,
            Err(fault) => {
                self.refuse(fault);
                return Err(fault);
            }
        };
        self.rest.advance(size);
        self.last_place = self.place;
        self.place += size as u64;
        Ok(Turn::Went(item))
    }

    /// Keeps a fault of the stream.
    fn refuse(&mut self, fault: IntakeFault)
        requires { NoMemoryInside fault }
        ensures { self.new ≡ refused self.old fault }
    {
        match fault {
            IntakeFault::Memory => {}
            IntakeFault::Pdu { .. }
            | IntakeFault::Interleaved { .. }
            | IntakeFault::StubTooLong { .. } => {
                self.fault = Some(fault);
                self.report();
            }
        }
    }

    /// Tells where the intake stands.
    fn report(&mut self)
        ensures { self.new ≡ reported self.old }
    {
        self.unprocessed = self.rest.len();
        self.unfinished = match &self.left {
            None => 0,
            Some(call) => call.stub.as_slice().len(),
        };
    }
}
