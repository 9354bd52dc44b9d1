//! What all connections of a node share.

ghost use Rattle.std.specs.Prelude.{◌≡◌, ◌∷◌, [], ◌++◌, ◌<◌, true, IfOk, IfSome, OnOk, option_map};
ghost use Rattle.update_records.specs.Validity.{IsValid};
ghost use Rattle.std.specs.List.{list_any};
ghost use Rattle.registry_defs.specs.Contents.{keys_in};
ghost use Rattle.rpc_calls.specs.Parts.{ItemFits};
ghost use Rattle.rpc_assoc.specs.State.{group_of};
ghost use Rattle.registry_server.specs.Servers.{without};
ghost use Rattle.client_connections.specs.Clients.{fresh_common, has_waiting, may_take, waits_at};
ghost use Rattle.client_connections.specs.Courses.{HasRoom, IsPopped, course_of};
ghost use Rattle.client_connections.specs.Finishing.{opened_in, queued};
ghost use Rattle.client_connections.specs.Items.{most_taken};
ghost use Rattle.client_connections.specs.declared.origin.Origin.TheVariants.{Batch};
ghost use Rattle.client_connections.specs.Taking.{point_if, serving, takes_one};

use crate::items;
use crate::origin::Origin;
use crate::taken::Taken;
use crate::took::Took;
use clus_registry::Registry;
use cluster_rules::Effect;
use context_handles::{Handles, Held};
use ndr_values::WireHandle;
use rpc_assoc::Assoc;
use rpc_calls::Item;
use std::alloc::{AllocError, Global};
use std::collections::VecDeque;
use std::marker::Model;

/// How many items and batches are taken.
pub(crate) const MOST_TAKEN: u64 = 9_223_372_036_854_775_807;

#[derive(Drop)]
pub(crate) struct Shared {
    pub(crate) alloc: Global,
    pub(crate) handles: Handles,
    /// For whom each queued update was made, the head first.
    pub(crate) waiting: VecDeque<Origin>,
    /// How many items and batches were taken so far.
    pub(crate) taken: u64,
}

impl Model for Shared {
    ghost use Rattle.std.specs.Prelude.{length};
    ghost use Rattle.client_connections.specs.Clients.{Common, IsRoomy};

    ghost Value = { Common };

    ghost view = { λ s. record { table = s.handles; waiting = s.waiting.items; taken = s.taken } };

    ghost invariant = { λ s. IsRoomy s.handles.serials (length s.waiting.items) s.taken };
}

impl Shared {
    pub(crate) fn new(alloc: Global, node: u16) -> Shared
        ensures { result ≡ fresh_common node }
    {
        Shared {
            alloc,
            handles: Handles::new(alloc, node),
            waiting: VecDeque::new(alloc),
            taken: 0,
        }
    }

    /// Whether the connection may take an item: none of its updates is queued, and the node takes further items.
    pub(crate) fn may_take(&self, conn: u32) -> bool
        ensures { result ≡ may_take conn self.now }
    {
        !self.has_waiting(conn) && self.taken < MOST_TAKEN
    }

    /// A connection that has this association leaves its group, if it has one.
    pub(crate) fn leave(&mut self, association: &Assoc)
        ensures { self.new ≡ record (self.old) { table = without (group_of association.now) self.old.table } }
    {
        if let Some(group) = association.group() {
            self.handles.leave(group);
        }
    }

    /// Opens a handle in the group of a connection that is bound, where there is something to open.
    pub(crate) fn open(
        &mut self,
        group: Option<u32>,
        held: Option<Held>,
    ) -> Result<Option<WireHandle>, AllocError>
        requires { HasRoom self.old }
        ensures opened { IfOk result (λ handle. (handle, self.new.table) ≡ opened_in group held self.old.table) }
        ensures stays { IfOk result (λ _. self.new ≡ record (self.old) { table = self.new.table }) }
    {
        let Some(group) = group else {
            return Ok(None);
        };
        let Some(held) = held else {
            return Ok(None);
        };
        Ok(Some(self.handles.open(group, held)?))
    }

    /// Takes the first that waits.
    pub(crate) fn pop(&mut self) -> Option<Origin>
        ensures { IsPopped result self.old self.new }
    {
        self.waiting.pop_front()
    }

    /// A batch waits from now on.
    pub(crate) fn push_batch(&mut self) -> Result<(), AllocError>
        requires { self.old.taken < most_taken }
        ensures { OnOk result (self.new ≡ queued Batch self.old) }
    {
        self.waiting.push_back(Origin::Batch)?;
        self.taken += 1;
        Ok(())
    }

    fn has_waiting(&self, conn: u32) -> bool
        ensures { result ≡ has_waiting conn self.now }
    {
        self.waiting.iter().any(|origin| waits_at(conn, origin))
    }

    /// Takes an item of the connection that has this association.
    pub(crate) fn take(
        &mut self,
        association: &mut Assoc,
        taken: &mut Taken,
        conn: u32,
        registry: Option<&Registry>,
        done: u64,
        item: Item,
    ) -> Result<(), AllocError>
        requires may { may_take conn self.old ≡ true }
        requires few { ItemFits item }
        requires valid { IfSome taken.old.update IsValid }
        ensures course { OnOk result (course_of self.new association.new taken.new
            ≡ takes_one (serving (option_map (λ kept. keys_in kept.now) registry.entry) done) conn (course_of self.old association.old taken.old) item) }
        ensures valid { OnOk result (IfSome taken.new.update IsValid) }
    {
        self.taken += 1;
        match items::item(
            self.alloc,
            &mut self.handles,
            association,
            conn,
            registry,
            item,
        )? {
            Took::Nothing => {}
            Took::Reply { bytes, reads } => {
                let point = point_if(reads, done);
                taken.effects.push(Effect::Reply { conn, point, bytes })?;
            }
            Took::Queues { origin, update } => {
                self.waiting.push_back(origin)?;
                taken.update = Some(update);
            }
        }
        Ok(())
    }
}

fn waits_at(conn: u32, origin: &Origin) -> bool
    ensures { result ≡ waits_at conn origin.now }
{
    match origin {
        Origin::Call { conn: at, .. } => *at == conn,
        Origin::Batch => false,
    }
}

/// The point of an answer is how many records the registry had that it was read of.
fn point_if(reads: bool, done: u64) -> Option<u64>
    ensures { result ≡ point_if done reads }
{
    if reads { Some(done) } else { None }
}
