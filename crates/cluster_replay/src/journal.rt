//! What a world keeps of what its nodes have done.

ghost use Rattle.std.specs.Prelude.{◌≡◌, ◌+◌, ◌<◌, ◌^◌, ◌++◌, [], ◌∷◌, length, IfOk, OnOk, option_copied, option_to_list};
ghost use Rattle.gum_messages.specs.Places.{at_place};
ghost use Rattle.cluster_worlds.specs.Telling.{joined, told_effect, told_effects, told_order};
ghost use Rattle.cluster_replay.specs.Journals.{noted, ordered, taken_in, told_in};

use crate::ordered::OrderedRecord;
use cluster_member::Effects;
use cluster_node::Node;
use cluster_rules::Effect;
use cluster_worlds::Told;
use gum_messages::Message;
use std::alloc::{AllocError, Global};
use std::marker::Model;
use update_records::Record;
use wire_fields::Octets;

/// The messages, the update order and the acknowledgements.
#[derive(Drop)]
pub(crate) struct Journal {
    alloc: Global,
    pool: Vec<Message>,
    order: Vec<OrderedRecord>,
    acks: Vec<(u32, u64)>,
}

impl Model for Journal {
    ghost use Rattle.cluster_replay.specs.Journals.{JournalState};

    ghost Value = { JournalState };

    ghost view = { λ j. record { pool = j.pool.items; order = j.order.items; acks = j.acks.items } };
}

impl Journal {
    pub(crate) fn new(alloc: Global) -> Journal
        ensures { result ≡ record { pool = []; order = []; acks = [] } }
    {
        Journal {
            alloc,
            pool: Vec::new(alloc),
            order: Vec::new(alloc),
            acks: Vec::new(alloc),
        }
    }

    /// The message with this number.
    pub(crate) fn message(&self, number: u64) -> Option<&Message>
        ensures { option_copied result ≡ at_place self.now.pool number }
    {
        if number == 0 {
            return None;
        }
        self.pool.get(number as usize - 1)
    }

    pub(crate) fn messages(&self) -> u64
        ensures { result ≡ length self.now.pool }
    {
        self.pool.len() as u64
    }

    pub(crate) fn order(&self) -> &[OrderedRecord]
        ensures { result.now ≡ self.now.order }
    {
        self.order.as_slice()
    }

    pub(crate) fn acks(&self) -> &[(u32, u64)]
        ensures { result.now ≡ self.now.acks }
    {
        self.acks.as_slice()
    }

    /// Takes in what a node has done that is now this one, and answers what is told of it.
    pub(crate) fn take_in(
        &mut self,
        node: &Node,
        effects: &Effects,
    ) -> Result<Vec<Told>, AllocError>
        ensures told { IfOk result (λ told. told.items ≡ told_in effects.now node.now self.old) }
        ensures taken { OnOk result (self.new ≡ taken_in effects.now node.now self.old) }
    {
        let mut told = Vec::new(self.alloc);
        self.grow(node, &mut told)?;
        self.note(node.number(), effects.as_slice(), &mut told)?;
        Ok(told)
    }

    /// The order grows by the last record of a node that has applied one record more than it has.
    fn grow(&mut self, node: &Node, told: &mut Vec<Told>) -> Result<(), AllocError>
        ensures told { OnOk result (told.new.items ≡ told.old.items ++ told_order (joined self.old.order node.now)) }
        ensures grown { OnOk result (self.new ≡ ordered (joined self.old.order node.now) self.old) }
    {
        let done = node.done().unwrap_or(0);
        if done != self.order.len() as u64 + 1 {
            return Ok(());
        }
        match node.last_record() {
            None => Ok(()),
            Some(entry) => self.join(entry, told),
        }
    }

    /// A record joins the order.
    fn join(&mut self, entry: &Record, told: &mut Vec<Told>) -> Result<(), AllocError>
        ensures told { OnOk result (told.new.items ≡ told.old.items ++ told_order (entry.now ∷ [])) }
        ensures joined { OnOk result (self.new ≡ ordered (entry.now ∷ []) self.old) }
    {
        let ordered = OrderedRecord::new(self.alloc, entry)?;
        let spelling = ordered.encoding().copy(self.alloc)?;
        let place = entry.place;
        self.order.push(ordered)?;
        told.push(Told::Order { place, spelling })?;
        Ok(())
    }

    /// Notes the effects of a node in turn.
    fn note(
        &mut self,
        node: u16,
        effects: &[Effect],
        told: &mut Vec<Told>,
    ) -> Result<(), AllocError>
        ensures told { OnOk result (told.new.items ≡ told.old.items ++ told_effects node (length self.old.pool) effects.now) }
        ensures noted { OnOk result (self.new ≡ noted effects.now self.old) }
    {
        'effects: for effect in effects {
            let event = self.note_one(node, effect)?;
            told.push(event)?;
        }
        Ok(())
    }

    fn note_one(&mut self, node: u16, effect: &Effect) -> Result<Told, AllocError>
        ensures told { IfOk result (λ told. told ≡ told_effect node (length self.old.pool) effect.now) }
        ensures noted { OnOk result (self.new ≡ noted (effect.now ∷ []) self.old) }
    {
        match effect {
            Effect::Send(message) => self.send(message),
            Effect::Reply { conn, point, bytes } => reply(self.alloc, *conn, *point, bytes),
            Effect::Closed { conn, cause } => Ok(Told::Closed {
                conn: *conn,
                cause: *cause,
            }),
            Effect::Acked { view, place } => self.acknowledge(node, *view, *place),
            Effect::Opened { view } => Ok(Told::Opened { node, view: *view }),
            Effect::Batched {
                req,
                point,
                status,
                index,
            } => Ok(Told::Batched {
                node,
                req: *req,
                point: *point,
                status: *status,
                index: *index,
            }),
            Effect::Halted(cause) => Ok(Told::Halted {
                node,
                cause: *cause,
            }),
        }
    }

    fn send(&mut self, message: &Message) -> Result<Told, AllocError>
        ensures told { IfOk result (λ told. told ≡ Told.Sent (length self.old.pool + 1) message.now) }
        ensures sent { OnOk result (self.new ≡ record self.old { pool = self.old.pool ++ message.now ∷ [] }) }
    {
        let number = self.pool.len() as u64 + 1;
        let kept = message.copy(self.alloc)?;
        self.pool.push(kept)?;
        let message = message.copy(self.alloc)?;
        Ok(Told::Sent { number, message })
    }

    fn acknowledge(&mut self, node: u16, view: u32, place: u64) -> Result<Told, AllocError>
        ensures told { IfOk result (λ told. told ≡ Told.Acked node view place) }
        ensures acked { OnOk result (self.new ≡ record self.old { acks = self.old.acks ++ (view, place) ∷ [] }) }
    {
        self.acks.push((view, place))?;
        Ok(Told::Acked { node, view, place })
    }
}

fn reply(alloc: Global, conn: u32, point: Option<u64>, bytes: &Octets) -> Result<Told, AllocError>
    ensures { IfOk result (λ told. told ≡ Told.Reply conn point bytes.now) }
{
    let bytes = bytes.copy(alloc)?;
    Ok(Told::Reply { conn, point, bytes })
}
