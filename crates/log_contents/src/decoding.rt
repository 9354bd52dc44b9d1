ghost use Rattle.std.specs.Prelude.{◌≡◌, ◌+◌, ◌==◌, IfErr, IfOk, Ok};
ghost use Rattle.update_records.specs.Entry.{Entry};
ghost use Rattle.update_records.specs.Outcomes.{Decodes};
ghost use Rattle.log_contents.specs.Contents.{IsContents, IsEncoded, IsLast, IsRecordAt, IsState};
ghost use Rattle.log_contents.specs.Faults.{ArePart, FailsOn, GivesContents, IsPart};
ghost use Rattle.log_contents.specs.declared.contents.LogContents as contents;

use crate::contents::{LogContents, Records};
use crate::fault::ContentsFault;
use clus_registry::{Registry, StateFault};
use quorum_log::Found;
use std::alloc::Global;
use update_records::{Record, RecordFault, decode, decode_first};

const LEAST_CAP: u32 = 4096;

const MOST_CAP: u32 = 16_777_216;

/// The contents of the log that was found, or its first part that is at fault.
pub fn decode_contents(alloc: Global, found: &Found) -> Result<LogContents, ContentsFault>
    ensures found { IfOk result (IsContents found.now) }
    // What a log holds is read, unless memory runs out.
    ensures only { (held : contents.LogContents) → IsContents found.now held → GivesContents result held }
    ensures fault { IfErr result (FailsOn found.now) }
{
    read_contents(alloc, found)
}

fn read_contents(alloc: Global, found: &Found) -> Result<LogContents, ContentsFault>
    ensures found { IfOk result (IsContents found.now) }
    ensures fault { IfErr result (FailsOn found.now) }
{
    let registry = state(alloc, found)?;
    let last = last(alloc, found)?;
    let records = records(alloc, found)?;
    Ok(LogContents {
        registry,
        last,
        records,
    })
}

fn state(alloc: Global, found: &Found) -> Result<Registry, ContentsFault>
    ensures { IsPart (IsState found.now) found.now.state_at result }
{
    let place = found.state_at;
    if found.cap < LEAST_CAP || MOST_CAP < found.cap {
        return Err(ContentsFault::Bad { place });
    }
    match Registry::from_bytes(alloc, found.state.as_slice(), found.cap) {
        Ok(registry) => Ok(registry),
        Err(StateFault::Bad { .. }) => Err(ContentsFault::Bad { place }),
        Err(StateFault::Memory) => Err(ContentsFault::Memory),
    }
}

fn last(alloc: Global, found: &Found) -> Result<Option<Record>, ContentsFault>
    ensures { IsPart (IsLast found.now) found.now.last_at result }
{
    let bytes = found.last.as_slice();
    if found.base == 0 && bytes.is_empty() {
        return Ok(None);
    }
    let last = record_at(alloc, found.version, found.base, 0, found.last_at, bytes)?;
    Ok(Some(last))
}

fn records(alloc: Global, found: &Found) -> Result<Records, ContentsFault>
    ensures { ArePart found.now.version (found.now.base + 1) found.now.records result }
{
    let mut items = Vec::new(alloc);
    'records: for stored in found.records.as_slice() {
        let number = items.len() as u64 + 1;
        let bytes = stored.bytes.as_slice();
        let next = record_at(alloc, found.version, found.base, number, stored.at, bytes)?;
        items.push(next)?;
    }
    Ok(Records::new(items))
}

/// The record that the bytes encode, which begin at `at` in the image and whose place is so many behind the base.
fn record_at(
    alloc: Global,
    version: u32,
    base: u64,
    number: u64,
    at: u64,
    bytes: &[u8],
) -> Result<Record, ContentsFault>
    ensures { IsPart (IsRecordAt version (base + number) bytes.now) at result }
{
    match decode_in(alloc, version, bytes) {
        Ok(entry) => {
            if is_behind(&entry, base, number) {
                Ok(entry)
            } else {
                Err(ContentsFault::Bad { place: at })
            }
        }
        Err(RecordFault::Bad { .. }) => Err(ContentsFault::Bad { place: at }),
        Err(RecordFault::Memory) => Err(ContentsFault::Memory),
    }
}

fn decode_in(alloc: Global, version: u32, bytes: &[u8]) -> Result<Record, RecordFault>
    ensures found { IfOk result (λ entry. IsEncoded version bytes.now entry) }
    ensures only { (entry : Entry) → IsEncoded version bytes.now entry → Decodes result (Ok entry) }
{
    if version == 1 {
        return decode_first(alloc, bytes);
    }
    decode(alloc, bytes)
}

/// Its place is so many behind the base.
fn is_behind(entry: &Record, base: u64, number: u64) -> bool
    ensures { result ≡ (entry.now.place == base + number) }
{
    base <= entry.place && entry.place - base == number
}
