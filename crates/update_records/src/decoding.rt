ghost use Rattle.std.specs.Prelude.{◌≡◌, IfOk};
ghost use Rattle.update_records.specs.declared.update.Update.{Update};
ghost use Rattle.update_records.specs.Checked.{each_at};
ghost use Rattle.update_records.specs.Grammar.{body_at, change_at, create_at, delete_key_at, delete_value_at, first_record_at, first_record_of, id_at, batch_at, kind_at, record_at, record_of, rest_at, room_below, set_value_at, single_at, update_at, update_of};
ghost use Rattle.update_records.specs.Entry.{Entry, IsFirst, IsRecord, entry_of, first_text, record_text};
ghost use Rattle.update_records.specs.Limits.{IsUpdate};
ghost use Rattle.update_records.specs.Outcomes.{Decodes, Ends, Takes};
ghost use Rattle.update_records.specs.Spelling.{update_text};
ghost use Rattle.update_records.specs.Validity.{IsValid};

use crate::change::Change;
use crate::changes::Changes;
use crate::fault::RecordFault;
use crate::reading::{
    data, name, path, u8_between, u16_between, u32_field, u64_between, u64_field,
};
use crate::update::Update;
use crate::update_id::UpdateId;
use crate::update_record::Record;
use clus_names::Path;
use std::alloc::Global;
use wire_fields::{Endian, Fields};

const NO_END: usize = usize::MAX;

/// With them a record keeps to 57,344 bytes.
const MOST_BATCH_BYTES: usize = 57_310;

const FIRST_PLACE: u64 = 1;

const LAST_PLACE: u64 = 9_223_372_036_854_775_807;

#[tactic(auto, unfolding(crate::specs::Grammar::create_at))]
fn create(
    alloc: Global,
    fields: &mut Fields<'_>,
    key: Path,
    birth: u64,
    end: usize,
) -> Result<Change, RecordFault>
    ensures { Takes (λ change. change) result (create_at key birth end fields.old) fields.new }
{
    let room = room_below(&key);
    let subkey = path(alloc, fields, 0, room, end)?;
    Ok(Change::Create { key, birth, subkey })
}

#[tactic(auto, unfolding(crate::specs::Grammar::set_value_at))]
fn set_value(
    alloc: Global,
    fields: &mut Fields<'_>,
    key: Path,
    birth: u64,
    end: usize,
) -> Result<Change, RecordFault>
    ensures { Takes (λ change. change) result (set_value_at key birth end fields.old) fields.new }
{
    let name = name(alloc, fields, end)?;
    let kind = u32_field(fields, end)?;
    let bytes = data(alloc, fields, end)?;
    Ok(Change::SetValue {
        key,
        birth,
        name,
        kind,
        bytes,
    })
}

#[tactic(auto, unfolding(crate::specs::Grammar::delete_value_at))]
fn delete_value(
    alloc: Global,
    fields: &mut Fields<'_>,
    key: Path,
    birth: u64,
    end: usize,
) -> Result<Change, RecordFault>
    ensures { Takes (λ change. change) result (delete_value_at key birth end fields.old) fields.new }
{
    let name = name(alloc, fields, end)?;
    Ok(Change::DeleteValue { key, birth, name })
}

#[tactic(auto, unfolding(crate::specs::Grammar::delete_key_at))]
fn delete_key(
    alloc: Global,
    fields: &mut Fields<'_>,
    key: Path,
    birth: u64,
    end: usize,
) -> Result<Change, RecordFault>
    ensures { Takes (λ change. change) result (delete_key_at key birth end fields.old) fields.new }
{
    let room = room_below(&key);
    let subkey = path(alloc, fields, 1, room, end)?;
    Ok(Change::DeleteKey { key, birth, subkey })
}

fn room_below(key: &Path) -> u16
    ensures { result ≡ room_below key.now }
{
    if key.parts() == 0 {
        return 1023;
    }
    1022u16.saturating_sub(key.units().len() as u16)
}

#[tactic(auto, unfolding(crate::specs::Grammar::rest_at))]
fn rest(
    alloc: Global,
    fields: &mut Fields<'_>,
    kind: u8,
    key: Path,
    birth: u64,
    end: usize,
) -> Result<Change, RecordFault>
    ensures { Takes (λ change. change) result (rest_at kind key birth end fields.old) fields.new }
{
    match kind {
        1 => create(alloc, fields, key, birth, end),
        2 => set_value(alloc, fields, key, birth, end),
        3 => delete_value(alloc, fields, key, birth, end),
        _ => delete_key(alloc, fields, key, birth, end),
    }
}

#[tactic(auto, unfolding(crate::specs::Grammar::body_at))]
fn body(alloc: Global, fields: &mut Fields<'_>, kind: u8, end: usize) -> Result<Change, RecordFault>
    ensures { Takes (λ change. change) result (body_at kind end fields.old) fields.new }
{
    let key = path(alloc, fields, 0, 1023, end)?;
    let birth = u64_field(fields, end)?;
    rest(alloc, fields, kind, key, birth, end)
}

#[tactic(auto, unfolding(crate::specs::Grammar::change_at))]
fn change(alloc: Global, fields: &mut Fields<'_>, end: usize) -> Result<Change, RecordFault>
    ensures { Takes (λ change. change) result (change_at end fields.old) fields.new }
{
    let kind = u8_between(fields, 1, 4, end)?;
    body(alloc, fields, kind, end)
}

fn changes(
    alloc: Global,
    fields: &mut Fields<'_>,
    count: u16,
    end: usize,
) -> Result<Vec<Change>, RecordFault>
    ensures { Takes (λ changes. changes.items) result (each_at count (change_at end) fields.old) fields.new }
{
    let mut changes = Vec::new(alloc);
    'changes: for _ in 0..count {
        let next = change(alloc, fields, end)?;
        changes.push(next)?;
    }
    Ok(changes)
}

#[tactic(auto, unfolding(crate::specs::Grammar::batch_at))]
fn batch(alloc: Global, fields: &mut Fields<'_>, end: usize) -> Result<Update, RecordFault>
    ensures { Takes (λ update. update) result (batch_at end fields.old) fields.new }
{
    let count = u16_between(fields, 1, 64, end)?;
    let changes = changes(alloc, fields, count, end)?;
    Ok(Update::Batch {
        changes: Changes::new(changes),
    })
}

#[tactic(auto, unfolding(crate::specs::Grammar::single_at))]
fn single(alloc: Global, fields: &mut Fields<'_>, kind: u8) -> Result<Update, RecordFault>
    ensures { Takes (λ update. update) result (single_at kind fields.old) fields.new }
{
    Ok(Update::from(body(alloc, fields, kind, NO_END)?))
}

#[tactic(auto, unfolding(crate::specs::Grammar::update_at))]
fn update(alloc: Global, fields: &mut Fields<'_>) -> Result<Update, RecordFault>
    ensures { Takes (λ update. update) result (update_at fields.old) fields.new }
{
    let end = fields.place().saturating_add(MOST_BATCH_BYTES);
    let kind = u8_between(fields, 1, 5, NO_END)?;
    if kind == 5 {
        return batch(alloc, fields, end);
    }
    single(alloc, fields, kind)
}

#[tactic(auto, unfolding(crate::specs::Grammar::id_at))]
fn id(fields: &mut Fields<'_>) -> Result<UpdateId, RecordFault>
    ensures { Takes (λ id. id) result (id_at fields.old) fields.new }
{
    let node = u16_between(fields, 1, 16, NO_END)?;
    let inc = u64_between(fields, 1, u64::MAX, NO_END)?;
    let req = u64_between(fields, 1, u64::MAX, NO_END)?;
    Ok(UpdateId { node, inc, req })
}

/// Bytes behind the value are at fault at the first of them.
fn ends(fields: &Fields<'_>) -> Result<(), RecordFault>
    ensures { Ends result fields.now }
{
    if fields.left() != 0 {
        return Err(RecordFault::Bad {
            place: fields.place(),
        });
    }
    Ok(())
}

#[tactic(auto, unfolding(crate::specs::Grammar::update_of))]
fn read_update(alloc: Global, bytes: &[u8]) -> Result<Update, RecordFault>
    ensures { Decodes result (update_of bytes.now) }
{
    let mut fields = Fields::new(bytes, Endian::Little);
    let read = update(alloc, &mut fields)?;
    ends(&fields)?;
    Ok(read)
}

/// The update that the bytes spell, all of the bytes.
pub fn decode_update(alloc: Global, bytes: &[u8]) -> Result<Update, RecordFault>
    // What is read is an update, and is spelled so.
    ensures found { IfOk result (λ update. IsUpdate update × (bytes.now ≡ update_text update)) }
    ensures valid { IfOk result IsValid }
    // What is spelled so is read, unless memory runs out.
    ensures only { (update : Update) → IsUpdate update → bytes.now ≡ update_text update → Decodes result (Ok update) }
    // Which field is at fault.
    ensures fault { Decodes result (update_of bytes.now) }
{
    read_update(alloc, bytes)
}

#[tactic(auto, unfolding(crate::specs::Grammar::record_at))]
fn record_fields(
    alloc: Global,
    fields: &mut Fields<'_>,
) -> Result<(u64, u64, UpdateId, Update), RecordFault>
    ensures { Takes entry_of result (record_at fields.old) fields.new }
{
    let place = u64_between(fields, FIRST_PLACE, LAST_PLACE, NO_END)?;
    let stamp = u64_field(fields, NO_END)?;
    let id = id(fields)?;
    let update = update(alloc, fields)?;
    Ok((place, stamp, id, update))
}

#[tactic(auto, unfolding(crate::specs::Grammar::first_record_at))]
fn first_record_fields(
    alloc: Global,
    fields: &mut Fields<'_>,
) -> Result<(u64, u64, UpdateId, Update), RecordFault>
    ensures { Takes entry_of result (first_record_at fields.old) fields.new }
{
    let place = u64_between(fields, FIRST_PLACE, LAST_PLACE, NO_END)?;
    let id = id(fields)?;
    let change = change(alloc, fields, NO_END)?;
    Ok((place, 0, id, Update::from(change)))
}

#[tactic(auto, unfolding(crate::specs::Grammar::record_of))]
fn read_record(alloc: Global, bytes: &[u8]) -> Result<Record, RecordFault>
    ensures { Decodes result (record_of bytes.now) }
{
    let mut fields = Fields::new(bytes, Endian::Little);
    let (place, stamp, id, update) = record_fields(alloc, &mut fields)?;
    ends(&fields)?;
    Ok(Record {
        place,
        stamp,
        id,
        update,
    })
}

#[tactic(auto, unfolding(crate::specs::Grammar::first_record_of))]
fn read_first_record(alloc: Global, bytes: &[u8]) -> Result<Record, RecordFault>
    ensures { Decodes result (first_record_of bytes.now) }
{
    let mut fields = Fields::new(bytes, Endian::Little);
    let (place, stamp, id, update) = first_record_fields(alloc, &mut fields)?;
    ends(&fields)?;
    Ok(Record {
        place,
        stamp,
        id,
        update,
    })
}

/// The record that the bytes spell, all of the bytes.
pub fn decode(alloc: Global, bytes: &[u8]) -> Result<Record, RecordFault>
    ensures found { IfOk result (λ entry. IsRecord entry × (bytes.now ≡ record_text entry)) }
    ensures only { (entry : Entry) → IsRecord entry → bytes.now ≡ record_text entry → Decodes result (Ok entry) }
    ensures fault { Decodes result (record_of bytes.now) }
{
    read_record(alloc, bytes)
}

/// The record that the bytes spell in version 1 of the format: it has no stamp, which is read as 0, and no batch.
pub fn decode_first(alloc: Global, bytes: &[u8]) -> Result<Record, RecordFault>
    ensures found { IfOk result (λ entry. IsRecord entry × IsFirst entry × (bytes.now ≡ first_text entry)) }
    ensures only { (entry : Entry) → IsRecord entry → IsFirst entry → bytes.now ≡ first_text entry → Decodes result (Ok entry) }
    ensures fault { Decodes result (first_record_of bytes.now) }
{
    read_first_record(alloc, bytes)
}
