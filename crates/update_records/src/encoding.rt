ghost use Rattle.std.specs.Prelude.{◌≡◌, ◌<◌, ◌≤◌, ◌^◌, length, IfOk, OnOk};
ghost use Rattle.wire_fields.specs.declared.endian.Endian.TheVariants.{Little};
ghost use Rattle.update_records.specs.Entry.{IsId, IsPlaced, IsRecord, id_text, record_text};
ghost use Rattle.update_records.specs.Limits.{IsUpdate};
ghost use Rattle.update_records.specs.Outcomes.{Appends};
ghost use Rattle.update_records.specs.Spelling.{update_text};
ghost use Rattle.update_records.specs.Validity.{IsValid};

use crate::update::Update;
use crate::update_id::UpdateId;
use crate::update_record::Record;
use crate::writing::put_update;
use std::alloc::{AllocError, Global};
use wire_fields::{Endian, Put};

/// The one spelling of the update, of at most 57,310 bytes.
pub fn encode_update(alloc: Global, update: &Update) -> Result<Vec<u8>, AllocError>
    requires { IsValid update.now }
    ensures written { IfOk result (λ bytes. bytes.items ≡ update_text update.now) }
    // So its decoding gives the update again.
    ensures limits { OnOk result (IsUpdate update.now) }
{
    let mut put = Put::new(alloc, Endian::Little);
    put_update(&mut put, update)?;
    Ok(put.into_bytes())
}

#[tactic(auto, unfolding(crate::specs::Entry::id_text))]
fn put_id(put: &mut Put, id: &UpdateId) -> Result<(), AllocError>
    requires { put.old.endian ≡ Little }
    ensures { Appends result put.old put.new (id_text id.now) }
{
    put.u16(id.node)?;
    put.u64(id.inc)?;
    put.u64(id.req)
}

#[tactic(auto, unfolding(crate::specs::Entry::record_text))]
fn put_record(put: &mut Put, entry: &Record) -> Result<(), AllocError>
    requires { put.old.endian ≡ Little }
    ensures written { Appends result put.old put.new (record_text entry.now) }
    ensures limits { OnOk result (IsUpdate entry.now.update) }
    ensures placed { IsPlaced entry.now.place entry.now.update }
    ensures stamp { entry.now.stamp < 2 ^ 64 }
{
    let stamp = entry.stamp;
    put.u64(entry.place)?;
    put.u64(stamp)?;
    put_id(put, &entry.id)?;
    put_update(put, &entry.update)
}

/// The one spelling of the record, of at most 57,344 bytes.
pub fn encode(alloc: Global, entry: &Record) -> Result<Vec<u8>, AllocError>
    ensures written { IfOk result (λ bytes. bytes.items ≡ record_text entry.now) }
    ensures short { IfOk result (λ bytes. length bytes.items ≤ 57344) }
    // So its decoding gives the record again, where its id is one.
    ensures limits { OnOk result (IsId entry.now.id → IsRecord entry.now) }
{
    let mut put = Put::new(alloc, Endian::Little);
    put_record(&mut put, entry)?;
    Ok(put.into_bytes())
}
