//! The connections of a node.

ghost use Rattle.std.specs.Prelude.{◌≡◌, ◌≤◌, [], IfOk, IfSome, length, None, OnOk, is_some, option_map};
ghost use Rattle.std.specs.Map.{keys_of};
ghost use Rattle.update_records.specs.Validity.{IsValid};
ghost use Rattle.registry_defs.specs.Contents.{keys_in};
ghost use Rattle.client_connections.specs.Clients.{client_at, closings, connected, hung_up, left_if_open, most_clients, no_clients, without_any};
ghost use Rattle.client_connections.specs.Courses.{EndsBy, GoesSoFar, HearsSoFar, IsClosed};
ghost use Rattle.client_connections.specs.Finishing.{batched};
ghost use Rattle.client_connections.specs.Taking.{Hears, Resumes, cause_of, serving};

use crate::connection::Connection;
use crate::shared::{MOST_TAKEN, Shared};
use crate::taken::Taken;
use crate::took::Ending;
use clus_registry::Registry;
use cluster_rules::{CloseCause, Effect};
use rpc_calls::IntakeFault;
use rpc_pdu::PduFault;
use std::alloc::{AllocError, Global};
use std::collections::BTreeMap;
use std::marker::Model;

/// How many connections may be open.
const MOST_CLIENTS: usize = 64;

/// The status of a batch at a node that isn't open.
const NOT_OPEN: u32 = 70;

/// What comes of a piece.
#[derive(Drop)]
pub(crate) enum Heard {
    Refused(CloseCause),
    /// Items were taken up to this ending.
    Went(Ending),
}

/// The connections of a node, and what they share.
#[derive(Drop)]
pub struct Connections {
    pub(crate) shared: Shared,
    pub(crate) conns: BTreeMap<u32, Connection>,
}

impl Model for Connections {
    ghost use Rattle.std.specs.Prelude.{◌≤◌, length};
    ghost use Rattle.client_connections.specs.Clients.{Clients, most_clients};

    ghost Value = { Clients };

    ghost view = { λ s. record { common = s.shared; conns = s.conns.entries } };

    ghost invariant = { λ s. length s.conns.entries ≤ most_clients };
}

impl Connections {
    /// The node with this number has no connection at first.
    pub fn new(alloc: Global, node: u16) -> Connections
        ensures { result ≡ no_clients node }
    {
        Connections {
            shared: Shared::new(alloc, node),
            conns: BTreeMap::new(alloc),
        }
    }

    /// A connection begins, unless as many are open as may be: then it is closed at once.
    pub fn connect(&mut self, conn: u32) -> Result<Option<Effect>, AllocError>
        requires unused { client_at conn self.old ≡ None }
        ensures { IfOk result (λ effect. (self.new, effect) ≡ connected conn self.old) }
    {
        if self.conns.len() >= MOST_CLIENTS {
            return Ok(Some(Effect::Closed {
                conn,
                cause: CloseCause::Limit,
            }));
        }
        self.conns.insert(conn, Connection::new(self.shared.alloc))?;
        Ok(None)
    }

    /// Whether the connection is open.
    pub fn is_open(&self, conn: u32) -> bool
        ensures { result ≡ is_some (client_at conn self.now) }
    {
        self.conns.contains_key(&conn)
    }

    /// The numbers of those that are open, ascending.
    pub fn numbers(&self) -> Result<Vec<u32>, AllocError>
        ensures { IfOk result (λ numbers. numbers.items ≡ keys_of self.now.conns) }
    {
        self.conns.keys().copied().collect(self.shared.alloc)
    }

    /// How many connections are open.
    pub fn len(&self) -> usize
        ensures count { result ≡ length self.now.conns }
        ensures most { result ≤ most_clients }
    {
        self.conns.len()
    }

    /// The node stops: each connection is closed, by ascending numbers.
    pub fn stop(&mut self) -> Result<Vec<Effect>, AllocError>
        ensures effects { IfOk result (λ effects. effects.items ≡ closings self.old.conns) }
        ensures gone { OnOk result (self.new ≡ without_any self.old) }
    {
        close_each(self.shared.alloc, &mut self.conns)
    }

    /// The client hangs up.
    pub fn hang_up(&mut self, conn: u32) -> Option<Effect>
        ensures { (self.new, result) ≡ hung_up conn (client_at conn self.old) self.old }
    {
        if !self.leave(conn) {
            return None;
        }
        Some(Effect::Closed {
            conn,
            cause: CloseCause::Peer,
        })
    }

    /// A batch waits for its update, where the node is open and takes further ones.
    pub fn batch(&mut self, is_open: bool) -> Result<Option<Effect>, AllocError>
        ensures { IfOk result (λ effect. (self.new, effect) ≡ batched is_open self.old) }
    {
        if !is_open || self.shared.taken >= MOST_TAKEN {
            return Ok(Some(Effect::Batched {
                req: 0,
                point: None,
                status: NOT_OPEN,
                index: 0,
            }));
        }
        self.shared.push_batch()?;
        Ok(None)
    }

    /// A piece of the stream of a connection comes: it takes the items that it may. There is a registry, of so many records,
    /// where the node is open.
    #[tactic(auto, using(crate::proofs::ConnectionLaws::hears_not, crate::proofs::ConnectionLaws::hears_refused, crate::proofs::ConnectionLaws::hears_on))]
    pub fn hear(
        &mut self,
        conn: u32,
        piece: &[u8],
        registry: Option<&Registry>,
        done: u64,
    ) -> Result<Taken, AllocError>
        ensures hears { IfOk result (λ taken. Hears (serving (option_map (λ kept. keys_in kept.now) registry.entry) done) conn piece.now (client_at conn self.old)
            self.old self.new taken.effects.items taken.update) }
        ensures valid { IfOk result (λ taken. IfSome taken.update IsValid) }
    {
        let mut taken = Taken::new(self.shared.alloc);
        match self.hear_so_far(conn, piece, registry, done, &mut taken)? {
            None => Ok(taken),
            Some(Heard::Refused(cause)) => {
                self.close(conn, cause, &mut taken)?;
                Ok(taken)
            }
            Some(Heard::Went(ending)) => {
                self.end(conn, ending, &mut taken)?;
                Ok(taken)
            }
        }
    }

    /// The same up to what follows.
    #[tactic(auto, using(crate::proofs::ConnectionLaws::heard_on))]
    fn hear_so_far(
        &mut self,
        conn: u32,
        piece: &[u8],
        registry: Option<&Registry>,
        done: u64,
        taken: &mut Taken,
    ) -> Result<Option<Heard>, AllocError>
        requires valid { IfSome taken.old.update IsValid }
        ensures heard { IfOk result (λ heard. HearsSoFar (client_at conn self.old) heard (serving (option_map (λ kept. keys_in kept.now) registry.entry) done) conn piece.now
            self.old self.new taken.old taken.new) }
        ensures valid { IfOk result (λ _. IfSome taken.new.update IsValid) }
    {
        match self.conns.get_mut(&conn) {
            None => Ok(None),
            Some(client) => match client.feed(piece)? {
                Some(cause) => Ok(Some(Heard::Refused(cause))),
                None => {
                    let ending = client.take(&mut self.shared, taken, conn, registry, done)?;
                    Ok(Some(Heard::Went(ending)))
                }
            },
        }
    }

    /// The connection takes the items of its stream that it may. There is a registry, of so many records, where the node is open.
    #[tactic(auto, using(crate::proofs::ConnectionLaws::resumes, crate::proofs::ConnectionLaws::resumes_not))]
    pub fn take(
        &mut self,
        conn: u32,
        registry: Option<&Registry>,
        done: u64,
    ) -> Result<Taken, AllocError>
        ensures resumes { IfOk result (λ taken. Resumes (serving (option_map (λ kept. keys_in kept.now) registry.entry) done) conn (client_at conn self.old)
            self.old self.new taken.effects.items taken.update) }
        ensures valid { IfOk result (λ taken. IfSome taken.update IsValid) }
    {
        let mut taken = Taken::new(self.shared.alloc);
        match self.go_on(conn, registry, done, &mut taken)? {
            None => Ok(taken),
            Some(ending) => {
                self.end(conn, ending, &mut taken)?;
                Ok(taken)
            }
        }
    }

    /// The same up to what follows of the ending. None where the connection isn't open.
    #[tactic(auto, using(crate::proofs::ConnectionLaws::went_on))]
    fn go_on(
        &mut self,
        conn: u32,
        registry: Option<&Registry>,
        done: u64,
        taken: &mut Taken,
    ) -> Result<Option<Ending>, AllocError>
        requires valid { IfSome taken.old.update IsValid }
        ensures went { IfOk result (λ ending. GoesSoFar (serving (option_map (λ kept. keys_in kept.now) registry.entry) done) conn (client_at conn self.old)
            self.old self.new taken.old taken.new ending) }
        ensures valid { IfOk result (λ _. IfSome taken.new.update IsValid) }
    {
        match self.conns.get_mut(&conn) {
            None => Ok(None),
            Some(client) => {
                let ending = client.take(&mut self.shared, taken, conn, registry, done)?;
                Ok(Some(ending))
            }
        }
    }

    /// With a fault of its stream the connection is closed.
    fn end(&mut self, conn: u32, ending: Ending, taken: &mut Taken) -> Result<(), AllocError>
        requires valid { IfSome taken.old.update IsValid }
        ensures ends { OnOk result (EndsBy conn ending self.old self.new taken.old taken.new) }
        ensures valid { OnOk result (IfSome taken.new.update IsValid) }
    {
        match ending {
            Ending::Waits => Ok(()),
            Ending::Rests => Ok(()),
            Ending::Fails(fault) => self.close(conn, cause_of(&fault), taken),
        }
    }

    /// The connection is closed.
    fn close(&mut self, conn: u32, cause: CloseCause, taken: &mut Taken) -> Result<(), AllocError>
        requires valid { IfSome taken.old.update IsValid }
        ensures closed { OnOk result (IsClosed conn cause self.old self.new taken.old taken.new) }
        ensures valid { OnOk result (IfSome taken.new.update IsValid) }
    {
        self.leave(conn);
        taken.effects.push(Effect::Closed { conn, cause })?;
        Ok(())
    }

    /// Takes the connection out of its group and of the list, and answers whether it was open.
    pub(crate) fn leave(&mut self, conn: u32) -> bool
        ensures open { result ≡ is_some (client_at conn self.old) }
        ensures left { self.new ≡ left_if_open conn (client_at conn self.old) self.old }
    {
        match self.conns.remove(&conn) {
            None => false,
            Some(client) => {
                self.shared.leave(&client.association);
                true
            }
        }
    }
}

fn close_each(
    alloc: Global,
    conns: &mut BTreeMap<u32, Connection>,
) -> Result<Vec<Effect>, AllocError>
    ensures effects { IfOk result (λ effects. effects.items ≡ closings conns.old.entries) }
    ensures gone { OnOk result (conns.new.entries ≡ []) }
    ensures fewer { length conns.new.entries ≤ length conns.old.entries }
{
    let mut effects = Vec::new(alloc);
    'conns: while let Some((conn, _)) = conns.pop_first() {
        effects.push(Effect::Closed {
            conn,
            cause: CloseCause::NodeStopped,
        })?;
    }
    Ok(effects)
}

/// Why a connection is closed whose stream has this fault.
fn cause_of(fault: &IntakeFault) -> CloseCause
    ensures { result ≡ cause_of fault.now }
{
    match fault {
        IntakeFault::Pdu {
            fault: PduFault::HasAuth,
            ..
        } => CloseCause::Verifier,
        IntakeFault::Pdu { place, .. } => CloseCause::Pdu { place: *place },
        IntakeFault::Interleaved { .. } => CloseCause::Interleaved,
        IntakeFault::StubTooLong { .. } => CloseCause::StubTooLong,
        // The stream has no such fault.
        IntakeFault::Memory => CloseCause::NodeStopped,
    }
}
