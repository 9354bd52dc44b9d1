//! A line by its words.

ghost use Rattle.std.specs.Prelude.{◌≡◌, ◌↔◌, ◌∷◌, ◌++◌, IfOk, IsTrue, codes};
ghost use Rattle.std.specs.Fmt.{decimal};
ghost use Rattle.clus_names.specs.Limits.{IsName};
ghost use Rattle.clus_names.specs.UnitTexts.{unit_text};
ghost use Rattle.hive_text.specs.HiveText.{data_text};
ghost use Rattle.hive_text.specs.LineWords.{IsLine, IsShortData, IsWord32, Lacks, Spells, bare, if_short, joined, key_in, value_in};

use crate::batching::out_of_memory;
use crate::line::Line;
use crate::words::{read_data, read_name, read_number, split_once};
use clus_names::{Name, Units};
use registry_tree::Value;
use std::alloc::{AllocError, Global};
use wire_fields::Octets;

/// How many bytes a value may have.
const MOST_DATA: usize = 49_152;

/// The line that this is, without its line feed.
pub(crate) fn read_line(alloc: Global, line: &[u8]) -> Result<Option<Line>, AllocError>
    ensures { IfOk result (Spells IsLine bare line.now) }
{
    if is_up(line) {
        return Ok(Some(Line::Up));
    }
    match split_once(line, b' ') {
        Some((verb, words)) => read_words(alloc, verb, words),
        None => Ok(None),
    }
}

fn is_up(line: &[u8]) -> bool
    ensures { IsTrue result ↔ (line.now ≡ codes "up") }
{
    line == b"up".as_slice()
}

fn read_words(alloc: Global, verb: &[u8], words: &[u8]) -> Result<Option<Line>, AllocError>
    requires { Lacks 32 verb.now }
    ensures { IfOk result (Spells IsLine bare (verb.now ++ 32 ∷ words.now)) }
{
    match split_once(words, b' ') {
        Some((first, others)) => read_others(alloc, verb, first, others),
        None => Ok(None),
    }
}

fn read_others(
    alloc: Global,
    verb: &[u8],
    first: &[u8],
    others: &[u8],
) -> Result<Option<Line>, AllocError>
    requires verb { Lacks 32 verb.now }
    requires first { Lacks 32 first.now }
    ensures { IfOk result (Spells IsLine bare (verb.now ++ 32 ∷ (first.now ++ 32 ∷ others.now))) }
{
    match split_once(others, b' ') {
        Some((second, third)) => read_four(alloc, verb, first, second, third),
        None => Ok(None),
    }
}

fn read_four(
    alloc: Global,
    verb: &[u8],
    first: &[u8],
    second: &[u8],
    third: &[u8],
) -> Result<Option<Line>, AllocError>
    requires verb { Lacks 32 verb.now }
    requires first { Lacks 32 first.now }
    requires second { Lacks 32 second.now }
    ensures { IfOk result (Spells IsLine bare (joined verb.now first.now second.now third.now)) }
{
    if is_key(verb) {
        return read_key(alloc, first, second, third);
    }
    if is_value(verb) {
        return read_value(alloc, first, second, third);
    }
    Ok(None)
}

fn is_key(verb: &[u8]) -> bool
    ensures { IsTrue result ↔ (verb.now ≡ codes "key") }
{
    verb == b"key".as_slice()
}

fn is_value(verb: &[u8]) -> bool
    ensures { IsTrue result ↔ (verb.now ≡ codes "value") }
{
    verb == b"value".as_slice()
}

fn read_key(
    alloc: Global,
    part: &[u8],
    birth: &[u8],
    written: &[u8],
) -> Result<Option<Line>, AllocError>
    requires part { Lacks 32 part.now }
    requires birth { Lacks 32 birth.now }
    ensures { IfOk result (Spells IsLine bare (joined (codes "key") part.now birth.now written.now)) }
{
    let part = read_name(alloc, part)?;
    Ok(key_of(part, read_number(birth), read_number(written)))
}

fn key_of(part: Option<Units>, birth: Option<u64>, written: Option<u64>) -> Option<Line>
    ensures { result ≡ key_in part birth written }
{
    Some(Line::Key {
        part: part?,
        birth: birth?,
        written: written?,
    })
}

fn read_value(
    alloc: Global,
    name: &[u8],
    kind: &[u8],
    bytes: &[u8],
) -> Result<Option<Line>, AllocError>
    requires name { Lacks 32 name.now }
    requires kind { Lacks 32 kind.now }
    ensures { IfOk result (Spells IsLine bare (joined (codes "value") name.now kind.now bytes.now)) }
{
    let name = read_value_name(alloc, name)?;
    let bytes = read_short_data(alloc, bytes)?;
    Ok(value_of(name, read_kind(kind), bytes))
}

fn value_of(name: Option<Name>, kind: Option<u32>, bytes: Option<Octets>) -> Option<Line>
    ensures { result ≡ value_in name kind bytes }
{
    Some(Line::Value(Value {
        name: name?,
        kind: kind?,
        bytes: bytes?,
    }))
}

fn read_value_name(alloc: Global, word: &[u8]) -> Result<Option<Name>, AllocError>
    ensures { IfOk result (Spells IsName unit_text word.now) }
{
    match read_name(alloc, word)? {
        Some(units) => Ok(Some(name_of(alloc, &units)?)),
        None => Ok(None),
    }
}

fn name_of(alloc: Global, units: &Units) -> Result<Name, AllocError>
    requires { IsName units.now }
    ensures { IfOk result (λ name. name ≡ units.now) }
{
    match Name::new(alloc, units.as_slice()) {
        Ok(name) => Ok(name),
        Err(fault) => Err(out_of_memory(fault)),
    }
}

fn read_kind(word: &[u8]) -> Option<u32>
    ensures { Spells IsWord32 decimal word.now result }
{
    match read_number(word) {
        Some(number) => {
            if number <= 0xFFFF_FFFF {
                Some(number as u32)
            } else {
                None
            }
        }
        None => None,
    }
}

fn read_short_data(alloc: Global, word: &[u8]) -> Result<Option<Octets>, AllocError>
    ensures { IfOk result (Spells IsShortData data_text word.now) }
{
    match read_data(alloc, word)? {
        Some(bytes) => Ok(if_short(bytes)),
        None => Ok(None),
    }
}

fn if_short(bytes: Octets) -> Option<Octets>
    ensures { result ≡ if_short bytes }
{
    if bytes.as_slice().len() <= MOST_DATA {
        return Some(bytes);
    }
    None
}
