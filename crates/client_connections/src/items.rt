//! What one item of a client's stream comes to.

ghost use Rattle.std.specs.Prelude.{◌≡◌, ◌+◌, ◌<◌, ◌≤◌, ◌++◌, ℕ, IfOk, IsTrue, Some, is_some, option_map};
ghost use Rattle.update_records.specs.Validity.{FitTogether, IsValid};
ghost use Rattle.registry_defs.specs.Contents.{keys_in};
ghost use Rattle.context_handles.specs.Table.{joined};
ghost use Rattle.rpc_calls.specs.Parts.{ItemFits};
ghost use Rattle.rpc_assoc.specs.Association.{IsInGroup, SpellsReply, reply_size};
ghost use Rattle.rpc_assoc.specs.State.{group_of};
ghost use Rattle.client_connections.specs.Items.{GivesNoHandle, HasEncoding, HasShortResults, IsSendable, QueuesNoHandle, QueuesValid, call_answered, called, ended, given_group, item_of, most_taken, replied, state, taken, target_of};

use crate::calls;
use crate::origin::Origin;
use crate::replies::{encoded, fault_text, results_text};
use crate::took::{CallEnd, Took};
use clus_names::Path;
use clus_registry::Registry;
use context_handles::Handles;
use rpc_assoc::{Assoc, AssocOut};
use rpc_calls::{Call, Item};
use std::alloc::{AllocError, Global};
use update_records::Update;

/// What an item of the connection comes to. There is a registry where the node is open.
pub(crate) fn item(
    alloc: Global,
    handles: &mut Handles,
    association: &mut Assoc,
    conn: u32,
    registry: Option<&Registry>,
    item: Item,
) -> Result<Took, AllocError>
    requires room { handles.old.serials < most_taken }
    requires few { ItemFits item }
    ensures took { IfOk result (λ took. (took, state handles.new association.new)
        ≡ item_of (option_map (λ kept. keys_in kept.now) registry.entry) conn (state handles.old association.old) item) }
    ensures room { handles.new.serials ≤ handles.old.serials + 1 }
    ensures queues { IfOk result (λ took. QueuesNoHandle took handles.old.serials handles.new.serials) }
    ensures valid { IfOk result QueuesValid }
{
    match step(handles, association, item)? {
        AssocOut::Reply(pdu) => Ok(Took::Reply {
            bytes: encoded(alloc, &pdu)?,
            reads: false,
        }),
        AssocOut::Call(call) => answer_call(alloc, handles, association, conn, registry, &call),
        AssocOut::Nothing => Ok(Took::Nothing),
    }
}

/// Hands the item to the association, in the group that it gets.
fn step(handles: &mut Handles, association: &mut Assoc, item: Item) -> Result<AssocOut, AllocError>
    requires few { ItemFits item }
    ensures step { IfOk result (λ out. (out, state handles.new association.new) ≡ taken (state handles.old association.old) item) }
    ensures encoding { IfOk result SpellsReply }
    ensures grouped { IfOk result (λ out. IsInGroup out association.new) }
    ensures serials { handles.new.serials ≡ handles.old.serials }
{
    let group = join(handles, association, &item)?;
    association.step(item, group)
}

/// Takes the connection into the group that the item asks for, if it does, and answers the group's number.
fn join(handles: &mut Handles, association: &Assoc, item: &Item) -> Result<Option<u32>, AllocError>
    ensures given { IfOk result (λ group. group ≡ given_group (state handles.old association.now) item.now) }
    ensures joined { IfOk result (λ group. handles.new ≡ joined handles.old group) }
    ensures serials { handles.new.serials ≡ handles.old.serials }
{
    let Some(asked) = association.wants(item) else {
        return Ok(None);
    };
    handles.join_group(asked)
}

/// Makes a call of the connection, which is bound.
fn answer_call(
    alloc: Global,
    handles: &mut Handles,
    association: &Assoc,
    conn: u32,
    registry: Option<&Registry>,
    call: &Call,
) -> Result<Took, AllocError>
    requires room { handles.old.serials < most_taken }
    requires grouped { IsTrue (is_some (group_of association.now)) }
    ensures took { IfOk result (λ took. (took, state handles.new association.now)
        ≡ call_answered (option_map (λ kept. keys_in kept.now) registry.entry) conn (state handles.old association.now) call.now (group_of association.now)) }
    ensures room { handles.new.serials ≤ handles.old.serials + 1 }
    ensures queues { IfOk result (λ took. QueuesNoHandle took handles.old.serials handles.new.serials) }
    ensures valid { IfOk result QueuesValid }
{
    let group = group(association);
    answer_in(alloc, handles, association, group, conn, registry, call)
}

/// The association group of the connection, which is bound.
fn group(association: &Assoc) -> u32
    requires { IsTrue (is_some (group_of association.now)) }
    ensures { group_of association.now ≡ Some result }
{
    association.group().unwrap()
}

/// The same for a connection in this group.
fn answer_in(
    alloc: Global,
    handles: &mut Handles,
    association: &Assoc,
    group: u32,
    conn: u32,
    registry: Option<&Registry>,
    call: &Call,
) -> Result<Took, AllocError>
    requires room { handles.old.serials < most_taken }
    ensures took { IfOk result (λ took. (took, state handles.new association.now)
        ≡ replied conn association.now call.now (called (option_map (λ kept. keys_in kept.now) registry.entry) handles.old group call.now)) }
    ensures room { handles.new.serials ≤ handles.old.serials + 1 }
    ensures queues { IfOk result (λ took. QueuesNoHandle took handles.old.serials handles.new.serials) }
    ensures valid { IfOk result QueuesValid }
{
    let end = calls::call(alloc, handles, group, registry, call)?;
    ended(alloc, association, conn, call, end)
}

/// A call that updates waits; any other is answered.
fn ended(
    alloc: Global,
    association: &Assoc,
    conn: u32,
    call: &Call,
    end: CallEnd,
) -> Result<Took, AllocError>
    requires encoding { HasEncoding end }
    requires short { HasShortResults end }
    requires sendable { IsSendable end }
    ensures took { IfOk result (λ took. took ≡ ended conn (reply_size association.now.terms) call.now end) }
    ensures queues { (old new : ℕ) → GivesNoHandle end old new → IfOk result (λ took. QueuesNoHandle took old new) }
    ensures valid { IfOk result QueuesValid }
{
    let max_xmit = association.max_xmit();
    match end {
        CallEnd::Results { out, reads } => Ok(Took::Reply {
            bytes: results_text(alloc, max_xmit, call.call_id, call.context, &out)?,
            reads,
        }),
        CallEnd::Fault(status) => Ok(Took::Reply {
            bytes: fault_text(alloc, call.call_id, call.context, status)?,
            reads: false,
        }),
        CallEnd::Sends(update) => Ok(Took::Queues {
            origin: Origin::Call {
                conn,
                call_id: call.call_id,
                context: call.context,
                opnum: call.opnum,
                target: target(alloc, &update)?,
            },
            update,
        }),
    }
}

/// The path of the key that the update creates.
fn target(alloc: Global, update: &Update) -> Result<Option<Path>, AllocError>
    requires { IsValid update.now }
    ensures { IfOk result (λ target. target ≡ target_of update.now) }
{
    match update {
        Update::Create { key, subkey, .. } => Ok(Some(joined(alloc, key, subkey)?)),
        _ => Ok(None),
    }
}

fn joined(alloc: Global, key: &Path, subkey: &Path) -> Result<Path, AllocError>
    requires { FitTogether key.now subkey.now }
    ensures { IfOk result (λ path. path ≡ key.now ++ subkey.now) }
{
    key.join(alloc, subkey).map_err(|_| AllocError)
}
