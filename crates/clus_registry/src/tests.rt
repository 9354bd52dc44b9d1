ghost use Rattle.std.specs.Prelude.{IfOk};
ghost use Rattle.clus_names.specs.Limits.{IsPath};
ghost use Rattle.update_records.specs.Validity.{IsValid};

use crate::*;
use clus_names::{Name, Path, lacks_zero};
use std::alloc::Global;
use std::fmt::Write;
use std::test::Fail;
use update_records::{Update, decode_update};
use wire_fields::{Endian, Put};

const CREATE: u8 = 1;

const SET_VALUE: u8 = 2;

const DELETE_VALUE: u8 = 3;

const DELETE_KEY: u8 = 4;

/// Creates `A` and sets its value `V` to the number 1.
const CREATE_FIRST: [u8; 47] = [
    5, 2, 0, 1, 0, 0, 0, 0, 0, 0, 0, 0, 0, 0, 1, 0, 0x41, 0, 2, 1, 0, 0x41, 0, 0, 0, 0, 0, 0, 0, 0,
    0, 1, 0, 0x56, 0, 4, 0, 0, 0, 4, 0, 0, 0, 1, 0, 0, 0,
];

/// The same changes in the other order.
const SET_FIRST: [u8; 47] = [
    5, 2, 0, 2, 1, 0, 0x41, 0, 0, 0, 0, 0, 0, 0, 0, 0, 1, 0, 0x56, 0, 4, 0, 0, 0, 4, 0, 0, 0, 1, 0,
    0, 0, 1, 0, 0, 0, 0, 0, 0, 0, 0, 0, 0, 1, 0, 0x41, 0,
];

/// Creates `B` and deletes the value `V` of `A`.
const CREATE_AND_DELETE: [u8; 35] = [
    5, 2, 0, 1, 0, 0, 0, 0, 0, 0, 0, 0, 0, 0, 1, 0, 0x42, 0, 3, 1, 0, 0x41, 0, 0, 0, 0, 0, 0, 0, 0,
    0, 1, 0, 0x56, 0,
];

/// A root with the key `A`, created as the first update, which has the value `V` and was changed at time 5, and below it `b`.
const SMALL: [u8; 80] = [
    0, 0, 0, 0, 0, 0, 0, 0, 0, 0, 0, 0, 1, 0, 0, 0, //
    1, 0, 0x41, 0, 1, 0, 0, 0, 0, 0, 0, 0x80, 5, 0, 0, 0, 0, 0, 0, 0, 1, 0, 0, 0, //
    1, 0, 0x56, 0, 3, 0, 0, 0, 4, 0, 0, 0, 7, 7, 7, 7, 1, 0, 0, 0, //
    1, 0, 0x62, 0, 1, 0, 0, 0, 0, 0, 0, 0, 0, 0, 0, 0, 0, 0, 0, 0,
];

fn units(alloc: Global, text: &str) -> Result<Vec<u16>, Fail> {
    let mut units = Vec::new(alloc);
    for byte in text.as_bytes() {
        units.push(u16::from(*byte))?;
    }
    Ok(units)
}

fn parsed(alloc: Global, units: &[u16]) -> Result<Path, Fail>
    ensures { IfOk result IsPath }
{
    if !lacks_zero(units) {
        return Err(Fail::new("a unit of 0"));
    }
    Ok(Path::parse(alloc, units).ok().ok_or("a path")?)
}

fn path(alloc: Global, text: &str) -> Result<Path, Fail> {
    parsed(alloc, &units(alloc, text)?)
}

fn put_text(put: &mut Put, text: &str) -> Result<(), Fail> {
    put.u16(text.len().min(2000) as u16)?;
    for byte in text.as_bytes() {
        put.u16(u16::from(*byte))?;
    }
    Ok(())
}

/// An update of one kind; `tail` is the subkey or the name of the value, and `count` how many bytes of 7 a value has.
fn update(
    alloc: Global,
    kind: u8,
    key: &str,
    birth: u64,
    tail: &str,
    count: u16,
) -> Result<Update, Fail>
    ensures { IfOk result IsValid }
{
    let mut put = Put::new(alloc, Endian::Little);
    put.u8(kind)?;
    put_text(&mut put, key)?;
    put.u64(birth)?;
    put_text(&mut put, tail)?;
    if kind == SET_VALUE {
        put.u32(3)?;
        put.u32(u32::from(count))?;
        put.bytes(&vec![in alloc; 7u8; count as usize]?)?;
    }
    Ok(decode_update(alloc, &put.into_bytes())?)
}

fn apply(registry: &mut Registry, place: u32, stamp: u64, update: &Update) -> Result<Outcome, Fail>
    requires { IsValid update.now }
{
    Ok(registry.apply(u64::from(place.max(1)), stamp, update)?)
}

/// An update with its stamp; its status, disposition and birth; the size afterwards.
type Step = (u64, u8, &'static str, u64, &'static str, u16, [u64; 3], u32);

/// Makes the updates, the first one as that of the place, and compares what each comes to.
fn run(alloc: Global, registry: &mut Registry, first: u32, steps: &[Step]) -> Result<(), Fail> {
    let mut place = first;
    for (stamp, kind, key, birth, tail, count, wanted, size) in steps {
        let update = update(alloc, *kind, key, *birth, tail, *count)?;
        let outcome = apply(registry, place, *stamp, &update)?;
        let found = [
            u64::from(outcome.status),
            u64::from(outcome.disposition),
            outcome.birth,
        ];
        if found != *wanted || registry.size() != *size {
            return Err(Fail::new(format_args!("the update at {place}")));
        }
        place = place.saturating_add(1);
    }
    Ok(())
}

const SMALL_STEPS: [Step; 7] = [
    (0, CREATE, "", 0, r"A\b", 0, [0, 1, 1], 56),
    // names keep the case in which they came
    (0, CREATE, "", 0, r"a\B", 0, [0, 2, 1], 56),
    (5, SET_VALUE, "A", 1, "V", 4, [0, 0, 0], 80),
    (6, SET_VALUE, "A", 2, "V", 5, [1018, 0, 0], 80),
    (6, DELETE_VALUE, "A", 1, "W", 0, [2, 0, 0], 80),
    (6, DELETE_KEY, "", 0, "A", 0, [1020, 0, 0], 80),
    (6, DELETE_KEY, "A", 1, "c", 0, [2, 0, 0], 80),
];

const LATER_STEPS: [Step; 6] = [
    (0, DELETE_VALUE, "A", 1, "v", 0, [0, 0, 0], 56),
    (7, DELETE_KEY, "A", 1, "B", 0, [0, 0, 0], 44),
    (0, DELETE_KEY, "", 0, "a", 0, [0, 0, 0], 16),
    (9, CREATE, "", 0, "a", 0, [0, 1, 11], 52),
    // an old handle on a new key
    (0, SET_VALUE, "A", 1, "V", 4, [1018, 0, 0], 52),
    (0, CREATE, "", 0, "", 0, [0, 2, 0], 52),
];

#[test]
fn updates_in_turn(rt: HostRuntime) -> Result<(), Fail> {
    let alloc = rt.alloc();
    let mut registry = Registry::new(alloc, 4096)?;
    run(alloc, &mut registry, 1, &SMALL_STEPS)?;
    let copied = registry.copy()?;
    assert_eq!(rt; copied.to_bytes()?.as_slice(), SMALL.as_slice());
    run(alloc, &mut registry, 8, &LATER_STEPS)?;
    assert_eq!(rt; registry.find(&path(alloc, "A")?), Some(11));
    assert_eq!(rt; registry.cap(), 4096);
    Ok(())
}

/// More keys and values beside those of `SMALL_STEPS`.
const WIDER_STEPS: [Step; 5] = [
    (6, CREATE, "", 0, r"A\longer name", 0, [0, 1, 8], 128),
    (9, SET_VALUE, r"A\b", 1, "hundred", 100, [0, 0, 0], 260),
    (9, SET_VALUE, r"A\b", 1, "none", 0, [0, 0, 0], 278),
    (0, CREATE, "", 0, "last", 0, [0, 1, 11], 304),
    (7, SET_VALUE, "", 0, "W", 9, [0, 0, 0], 333),
];

/// Whether each window of so many bytes is the same part of the encoding.
fn has_pieces(alloc: Global, registry: &Registry, bytes: &[u8], length: u16) -> Result<bool, Fail> {
    let mut into = vec![in alloc; 0xAA; length as usize]?;
    for offset in 0..u16::MAX {
        let end = usize::from(offset) + usize::from(length);
        if (registry.size() as usize) < end {
            break;
        }
        registry.state_piece(u32::from(offset), &mut into);
        if bytes.get(usize::from(offset)..end) != Some(into.as_slice()) {
            return Ok(false);
        }
    }
    Ok(true)
}

#[test]
fn pieces_of_the_encoding(rt: HostRuntime) -> Result<(), Fail> {
    let alloc = rt.alloc();
    let mut registry = Registry::new(alloc, 4096)?;
    run(alloc, &mut registry, 1, &SMALL_STEPS)?;
    run(alloc, &mut registry, 8, &WIDER_STEPS)?;
    let bytes = registry.to_bytes()?;
    for length in [0, 1, 7, 64, 333] {
        assert!(rt; has_pieces(alloc, &registry, &bytes, length)?);
    }
    Ok(())
}

/// What is read of the key `A` of the small registry, in a line.
fn describe(alloc: Global, registry: &Registry, to: &mut String) -> Result<(), Fail> {
    let key = path(alloc, "a")?;
    let name = Name::new(alloc, &[0x76]).ok().ok_or("a name")?;
    let (first, second) = (registry.nth_key(&key, 0), registry.nth_key(&key, 1));
    let named = registry.nth_value(&key, 0);
    let value = registry.value(&key, &name);
    let info = registry.info(&key);
    write!(to, "{first:?} {second:?} {named:?} {value:?} {info:?}")?;
    Ok(())
}

#[test]
fn readings_of_a_key(rt: HostRuntime) -> Result<(), Fail> {
    let alloc = rt.alloc();
    let mut registry = Registry::new(alloc, 4096)?;
    run(alloc, &mut registry, 1, &SMALL_STEPS)?;
    let mut text = String::new(alloc);
    describe(alloc, &registry, &mut text)?;
    assert_eq!(rt;
        text.as_str(),
        "Some(([98], 0)) None Some(([86], 3, [7, 7, 7, 7])) Some((3, [7, 7, 7, 7])) \
         Some(Info { subkeys: 1, longest_subkey: 1, values: 1, longest_name: 1, longest_data: 4, written: 5 })"
    );
    Ok(())
}

const FULL_STEPS: [Step; 10] = [
    (0, SET_VALUE, "", 0, "V", 4067, [0, 0, 0], 4095),
    (0, SET_VALUE, "", 0, "V", 4069, [112, 0, 0], 4095),
    (0, SET_VALUE, "", 0, "V", 4068, [0, 0, 0], 4096),
    // a written time counts
    (5, SET_VALUE, "", 0, "V", 4068, [112, 0, 0], 4096),
    (5, DELETE_VALUE, "", 0, "V", 0, [0, 0, 0], 24),
    (0, SET_VALUE, "", 0, "V", 4068, [0, 0, 0], 4096),
    // a key takes 20 bytes, and none of a path is made where all of it doesn't fit
    (0, CREATE, "", 0, "A", 0, [112, 0, 0], 4096),
    (0, SET_VALUE, "", 0, "V", 4048, [0, 0, 0], 4076),
    (0, CREATE, "", 0, r"A\b", 0, [112, 0, 0], 4076),
    (0, CREATE, "", 0, "A", 0, [0, 1, 10], 4096),
];

#[test]
fn a_registry_filled_to_its_cap(rt: HostRuntime) -> Result<(), Fail> {
    let alloc = rt.alloc();
    run(alloc, &mut Registry::new(alloc, 4096)?, 1, &FULL_STEPS)
}

/// Batches, each with its status, the number of the change that it was refused for, and the size afterwards.
const BATCHES: [(&'static [u8], u32, u32, u32); 5] = [
    (&SET_FIRST, 1018, 1, 16),
    (&CREATE_AND_DELETE, 1018, 2, 16),
    (&CREATE_FIRST, 0, 0, 52),
    (&CREATE_AND_DELETE, 0, 0, 56),
    (&CREATE_AND_DELETE, 2, 2, 56),
];

#[test]
fn batches_are_made_whole_or_not_at_all(rt: HostRuntime) -> Result<(), Fail> {
    let alloc = rt.alloc();
    let mut registry = Registry::new(alloc, 4096)?;
    for (batch, status, index, size) in BATCHES {
        let outcome = apply(&mut registry, 1, 0, &decode_update(alloc, batch)?)?;
        let found = (outcome.status, outcome.index, registry.size());
        assert_eq!(rt; found, (status, index, size));
    }
    Ok(())
}

#[test]
fn a_path_of_512_parts(rt: HostRuntime) -> Result<(), Fail> {
    let alloc = rt.alloc();
    let mut registry = Registry::new(alloc, 1_048_576)?;
    let mut text = String::new(alloc);
    for _ in 0..511 {
        text.push_str(r"a\")?;
    }
    text.push_str("a")?;
    let outcome = apply(
        &mut registry,
        1,
        0,
        &update(alloc, CREATE, "", 0, text.as_str(), 0)?,
    )?;
    assert_eq!(rt; (outcome.status, outcome.disposition), (0, 1));
    assert_eq!(rt; registry.find(&path(alloc, text.as_str())?), Some(1));
    assert_eq!(rt; registry.size(), 10_256);
    let bytes = registry.to_bytes()?;
    let read = Registry::from_bytes(alloc, &bytes, 1_048_576)?;
    assert_eq!(rt; read.find(&path(alloc, text.as_str())?), Some(1));
    assert_eq!(rt; read.to_bytes()?.as_slice(), bytes.as_slice());
    Ok(())
}
/// How many subkeys a key has.
fn subkeys(registry: &Registry, key: &Path) -> u32 {
    match registry.info(key) {
        None => 0,
        Some(info) => info.subkeys,
    }
}

/// Makes 512 keys with 512 subkeys each, from the greatest name to the least.
fn make_broad_tree(alloc: Global, registry: &mut Registry) -> Result<(), Fail> {
    for made in 0..262_144u32 {
        let (first, second) = ((made / 512) as u16, (made % 512) as u16);
        let create = Update::Create {
            key: Path::root(alloc),
            birth: 0,
            subkey: parsed(alloc, &[0x2FF - first, 0x5C, 0x2FF - second])?,
        };
        let outcome = apply(registry, made + 1, 0, &create)?;
        if outcome.status != 0 || outcome.disposition != 1 {
            return Err(Fail::new("a key that isn't new"));
        }
    }
    Ok(())
}

#[test]
fn a_broad_tree(rt: HostRuntime) -> Result<(), Fail> {
    let alloc = rt.alloc();
    let mut registry = Registry::new(alloc, 16_777_216)?;
    make_broad_tree(alloc, &mut registry)?;
    assert_eq!(rt; registry.size(), 5_253_136);
    assert_eq!(rt; subkeys(&registry, &Path::root(alloc)), 512);
    assert_eq!(rt; subkeys(&registry, &parsed(alloc, &[0x100])?), 512);
    assert_eq!(rt; subkeys(&registry, &parsed(alloc, &[0x2FF])?), 512);
    Ok(())
}
