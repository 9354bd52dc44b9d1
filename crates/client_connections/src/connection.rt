//! One connection: the bytes of its stream, its association, and the items that it takes.

ghost use Rattle.std.specs.Prelude.{◌≡◌, ◌≤◌, IfOk, IfSome, option_map};
ghost use Rattle.update_records.specs.Validity.{IsValid};
ghost use Rattle.registry_defs.specs.Contents.{keys_in};
ghost use Rattle.rpc_assoc.specs.Association.{reply_size};
ghost use Rattle.rpc_assoc.specs.State.{group_of};
ghost use Rattle.client_connections.specs.Clients.{fresh_client};
ghost use Rattle.client_connections.specs.Courses.{IsShorter, IsTurn, course_of, fed_unless};
ghost use Rattle.client_connections.specs.Taking.{Takes, refusal, serving};

use crate::shared::Shared;
use crate::taken::Taken;
use crate::took::Ending;
use clus_registry::Registry;
use cluster_rules::CloseCause;
use rpc_assoc::Assoc;
use rpc_calls::{FeedFault, Intake, IntakeFault, Side};
use std::alloc::{AllocError, Global};
use std::marker::Model;

/// How long the stream of a connection may be.
const MOST_STREAM: u64 = 1_073_741_824;

#[derive(Drop)]
pub(crate) struct Connection {
    pub(crate) intake: Intake,
    pub(crate) association: Assoc,
}

impl Model for Connection {
    ghost use Rattle.client_connections.specs.Clients.{Client, IsServed};

    ghost Value = { Client };

    ghost view = { λ k. record { intake = k.intake; association = k.association } };

    ghost invariant = { λ k. IsServed k.intake };
}

impl Connection {
    pub(crate) fn new(alloc: Global) -> Connection
        ensures { result ≡ fresh_client }
    {
        Connection {
            intake: Intake::new(alloc, Side::Server),
            association: Assoc::new(alloc),
        }
    }

    /// The association group, once the connection is bound.
    pub(crate) fn group(&self) -> Option<u32>
        ensures { result ≡ group_of self.now.association }
    {
        self.association.group()
    }

    /// The longest fragment that may be sent.
    pub(crate) fn max_xmit(&self) -> u16
        ensures agreed { result ≡ reply_size self.now.association.terms }
        ensures least { 1432 ≤ result }
        ensures most { result ≤ 5840 }
    {
        self.association.max_xmit()
    }

    /// Takes a piece of the stream in, or answers why the connection is to be closed.
    pub(crate) fn feed(&mut self, piece: &[u8]) -> Result<Option<CloseCause>, AllocError>
        ensures refused { IfOk result (λ cause. cause ≡ refusal self.old.intake piece.now) }
        ensures fed { IfOk result (λ cause. self.new ≡ fed_unless cause piece.now self.old) }
    {
        if piece.len() as u64 > MOST_STREAM - self.intake.received() {
            return Ok(Some(CloseCause::Limit));
        }
        match self.intake.feed(piece) {
            Ok(()) => Ok(None),
            Err(FeedFault::Backlog) => Ok(Some(CloseCause::Backlog)),
            Err(FeedFault::Memory) => Err(AllocError),
        }
    }

    /// Takes items in turn, until there is a reason to take no further one.
    pub(crate) fn take(
        &mut self,
        shared: &mut Shared,
        taken: &mut Taken,
        conn: u32,
        registry: Option<&Registry>,
        done: u64,
    ) -> Result<Ending, AllocError>
        requires valid { IfSome taken.old.update IsValid }
        ensures takes { IfOk result (λ ending. Takes (serving (option_map (λ kept. keys_in kept.now) registry.entry) done) conn self.old.intake self.new.intake
            (course_of shared.old self.old.association taken.old) (course_of shared.new self.new.association taken.new) ending) }
        ensures valid { IfOk result (λ _. IfSome taken.new.update IsValid) }
    {
        'items: loop {
            match self.turn(shared, taken, conn, registry, done)? {
                Some(ending) => return Ok(ending),
                None => {}
            }
        }
    }

    /// Takes the next item, or answers why none is taken.
    fn turn(
        &mut self,
        shared: &mut Shared,
        taken: &mut Taken,
        conn: u32,
        registry: Option<&Registry>,
        done: u64,
    ) -> Result<Option<Ending>, AllocError>
        requires valid { IfSome taken.old.update IsValid }
        ensures turn { IfOk result (λ ending. IsTurn (serving (option_map (λ kept. keys_in kept.now) registry.entry) done) conn self.old.intake self.new.intake
            (course_of shared.old self.old.association taken.old) (course_of shared.new self.new.association taken.new) ending) }
        ensures valid { IfOk result (λ _. IfSome taken.new.update IsValid) }
        ensures shorter { IfOk result (IsShorter self.old.intake self.new.intake) }
    {
        if !shared.may_take(conn) {
            return Ok(Some(Ending::Rests));
        }
        match self.intake.next() {
            Ok(Some(item)) => {
                shared.take(&mut self.association, taken, conn, registry, done, item)?;
                Ok(None)
            }
            Ok(None) => Ok(Some(Ending::Waits)),
            Err(IntakeFault::Memory) => Err(AllocError),
            Err(IntakeFault::Pdu { place, fault }) => {
                Ok(Some(Ending::Fails(IntakeFault::Pdu { place, fault })))
            }
            Err(IntakeFault::Interleaved { place }) => {
                Ok(Some(Ending::Fails(IntakeFault::Interleaved { place })))
            }
            Err(IntakeFault::StubTooLong { place }) => {
                Ok(Some(Ending::Fails(IntakeFault::StubTooLong { place })))
            }
        }
    }
}
