//! What the types hold of an event. Its values are read for that alone: a type speaks of a value once that is read.

ghost use Rattle.std.specs.Prelude.{◌<◌, ◌^◌, ℕ, All};
ghost use Rattle.wire_fields.specs.Numbers.{IsBytes};
ghost use Rattle.gum_messages.specs.Members.{inc_of};
ghost use Rattle.gum_messages.specs.Views.{IsView};
ghost use Rattle.update_records.specs.Limits.{HasFields, IsBatch, IsUpdate};
ghost use Rattle.update_records.specs.Validity.{IsValidBatch};
ghost use Rattle.cluster_worlds.specs.Conditions as conditions;
ghost use Rattle.world_laws.specs.Typed.{IsTypedEvent};
ghost use Rattle.cluster_replay.specs.Types.{HasLowInc};

use cluster_worlds::Event;
use gum_messages::View;
use update_records::{Change, Update};
use view_reconcile::Member;

/// The event is one that the types hold.
pub(crate) fn read(event: &Event)
    requires event { conditions.IsEvent event.now }
    ensures { IsTypedEvent event.now }
{
    match event {
        Event::Declare(view) => read_view(view),
        Event::Bytes { piece, .. } => read_bytes(piece.as_slice()),
        Event::Clock { stamp, .. } => {
            let _stamp = *stamp;
        }
        Event::Batch { update, .. } => read_update(update),
        _ => {}
    }
}

fn read_view(view: &View)
    ensures view { IsView view.now }
    ensures incs { (n : ℕ) → inc_of view.now.members n < 2 ^ 64 }
{
    let _number = view.number();
    read_members(view.members().as_slice());
}

fn read_members(members: &[Member])
    ensures { All HasLowInc members.now }
{
    'members: for member in members {
        read_member(member);
    }
}

fn read_member(member: &Member)
    ensures { HasLowInc member.now }
{
    let _inc = member.inc;
}

fn read_bytes(bytes: &[u8])
    ensures { IsBytes bytes.now }
{}

fn read_update(update: &Update)
    requires valid { conditions.IsBatch update.now }
    ensures { IsUpdate update.now }
{
    if let Update::Batch { changes } = update {
        read_changes(changes.as_slice());
    }
}

fn read_changes(changes: &[Change])
    requires valid { IsValidBatch changes.now }
    ensures { IsBatch changes.now }
{
    read_each(changes);
}

fn read_each(changes: &[Change])
    ensures { All HasFields changes.now }
{
    'changes: for change in changes {
        read_change(change);
    }
}

fn read_change(change: &Change)
    ensures { HasFields change.now }
{
    match change {
        Change::Create { key, birth, subkey } => {
            let _birth = *birth;
            let _key = key.units();
            let _subkey = subkey.units();
        }
        Change::SetValue {
            key,
            birth,
            name,
            kind,
            bytes,
        } => {
            let _birth = *birth;
            let _kind = *kind;
            let _key = key.units();
            let _name = name.units();
            read_bytes(bytes.as_slice());
        }
        Change::DeleteValue { key, birth, name } => {
            let _birth = *birth;
            let _key = key.units();
            let _name = name.units();
        }
        Change::DeleteKey { key, birth, subkey } => {
            let _birth = *birth;
            let _key = key.units();
            let _subkey = subkey.units();
        }
    }
}
