//! A registry that is named line by line.

ghost use Rattle.std.specs.Prelude.{◌≡◌, ◌↔◌, ◌≤◌, [], length, true, IfOk, IsTrue, OnOk};
ghost use Rattle.registry_defs.specs.Contents.{IsCap};
ghost use Rattle.registry_defs.specs.Contents.{keys_in as contents_keys};
ghost use Rattle.registry_defs.specs.Limits.{IsRegistry};
ghost use Rattle.registry_defs.specs.Nodes.{keys_of};
ghost use Rattle.registry_defs.specs.Sizes.{size, written_size};
ghost use Rattle.registry_defs.specs.StateGrammar.{is_above, lacks_separator};
ghost use Rattle.hive_text.specs.LineWords.{IsLine};
ghost use Rattle.hive_text.specs.Walks.{Begins, IsBegun, IsHeld, IsOrdered, IsSound, IsUp, Steps, is_birth, is_part, last_part, last_value, level_node, may_begin, may_hold, size_with_key, size_with_value};
ghost use Rattle.hive_text.specs.declared.line.Line.TheVariants as lines;

use crate::line::Line;
use clus_names::{Units, cmp_folded};
use clus_registry::{Registry, StateFault};
use registry_tree::{Key, Value};
use std::alloc::{AllocError, Global};
use std::mem;
use wire_fields::{Endian, Put};

/// The bytes that the root takes of the size.
const ROOT_BYTES: usize = 16;

/// The bytes that another key takes, beside those of its name.
const KEY_BYTES: usize = 18;

/// The bytes that a value takes, beside those of its name and its data.
const VALUE_BYTES: usize = 10;

/// How many units a key's name may have.
const MOST_PART: usize = 255;

/// How many units the text of a path may have.
const MOST_PATH: usize = 1023;

/// Creation numbers are below this one.
const BIRTH_END: u64 = 0x8000_0000_0000_0000;

const SEPARATOR: u16 = 0x5C;

/// An open key with what stands below it and has ended.
#[derive(Drop)]
pub(crate) struct Level {
    pub(crate) part: Units,
    pub(crate) birth: u64,
    pub(crate) written: u64,
    pub(crate) values: Vec<Value>,
    pub(crate) subkeys: Vec<Key>,
}

/// The keys that were named so far.
#[derive(Drop)]
pub(crate) struct Walk {
    pub(crate) alloc: Global,
    pub(crate) cap: usize,
    /// The open keys above the innermost one, the root first.
    pub(crate) above: Vec<Level>,
    /// The innermost open key, or the root when it has ended.
    pub(crate) here: Level,
    pub(crate) ended: bool,
    /// The size of the keys so far.
    pub(crate) size: usize,
    /// How many units the names on its path have, with one for each name.
    pub(crate) used: usize,
}

impl Level {
    fn new(alloc: Global, part: Units, birth: u64, written: u64) -> Level
        ensures part { result.part ≡ part }
        ensures birth { result.birth ≡ birth }
        ensures written { result.written ≡ written }
        ensures values { result.values.items ≡ [] }
        ensures subkeys { result.subkeys.items ≡ [] }
    {
        Level {
            part,
            birth,
            written,
            values: Vec::new(alloc),
            subkeys: Vec::new(alloc),
        }
    }

    /// The key, with all that stands below it.
    fn into_key(self) -> Key
        requires { IsOrdered self }
        ensures { result ≡ level_node self }
    {
        let Level {
            part,
            birth,
            written,
            values,
            subkeys,
        } = self;
        Key::of(part, birth, written, values, subkeys)
    }
}

impl Walk {
    /// The walk behind the line of the root, if it is one.
    pub(crate) fn start(alloc: Global, cap: usize, line: Line) -> Option<Walk>
        requires fits { IsLine line }
        requires large { 4096 ≤ cap }
        requires most { cap ≤ 16777216 }
        ensures { Begins cap line result }
    {
        match line {
            Line::Key {
                part,
                birth,
                written,
            } => Walk::of_root(alloc, cap, part, birth, written),
            Line::Value(_) => None,
            Line::Up => None,
        }
    }

    fn of_root(alloc: Global, cap: usize, part: Units, birth: u64, written: u64) -> Option<Walk>
        requires fits { IsLine (lines.Key part birth written) }
        requires large { 4096 ≤ cap }
        requires most { cap ≤ 16777216 }
        ensures { Begins cap (lines.Key part birth written) result }
    {
        if !is_root(part.as_slice(), birth) {
            return None;
        }
        Some(Walk {
            alloc,
            cap,
            above: Vec::new(alloc),
            here: Level::new(alloc, part, birth, written),
            ended: false,
            size: ROOT_BYTES + written_size(written),
            used: 0,
        })
    }

    /// Takes the next line, or tells that it can't stand there.
    pub(crate) fn take(&mut self, line: Line) -> Result<bool, AllocError>
        requires sound { IsSound self.old }
        requires fits { IsLine line }
        ensures { Steps line result self.old self.new }
    {
        match line {
            Line::Key {
                part,
                birth,
                written,
            } => self.begin(part, birth, written),
            Line::Value(value) => self.hold(value),
            Line::Up => self.end(),
        }
    }

    fn begin(&mut self, part: Units, birth: u64, written: u64) -> Result<bool, AllocError>
        requires sound { IsSound self.old }
        requires fits { IsLine (lines.Key part birth written) }
        ensures { Steps (lines.Key part birth written) result self.old self.new }
    {
        if !self.may_begin(part.as_slice(), birth) {
            return Ok(false);
        }
        let size = self.size_with_key(part.as_slice(), written);
        if self.cap < size {
            return Ok(false);
        }
        self.open(part, birth, written, size)?;
        Ok(true)
    }

    fn may_begin(&self, part: &[u16], birth: u64) -> bool
        requires { self.now.used ≤ 1024 }
        ensures { result ≡ may_begin self.now part.now birth }
    {
        !self.ended
            && ((is_part(part) && is_birth(birth))
                && (self.used + part.len() <= MOST_PATH && is_above_keys(&self.here.subkeys, part)))
    }

    fn size_with_key(&self, part: &[u16], written: u64) -> usize
        requires size { self.now.size ≤ 16777216 }
        requires part { length part.now ≤ 255 }
        ensures { result ≡ size_with_key self.now part.now written }
    {
        self.size + (KEY_BYTES + 2 * part.len() + written_size(written))
    }

    fn open(&mut self, part: Units, birth: u64, written: u64, size: usize) -> Result<(), AllocError>
        requires used { self.old.used ≤ 1024 }
        requires part { length part ≤ 255 }
        ensures { OnOk result (IsBegun self.old part birth written size self.new) }
    {
        self.size = size;
        self.used += part.as_slice().len() + 1;
        let level = Level::new(self.alloc, part, birth, written);
        self.above.push(mem::replace(&mut self.here, level))?;
        Ok(())
    }

    fn hold(&mut self, value: Value) -> Result<bool, AllocError>
        requires sound { IsSound self.old }
        requires fits { IsLine (lines.Value value) }
        ensures { Steps (lines.Value value) result self.old self.new }
    {
        if !self.may_hold(value.name.units()) {
            return Ok(false);
        }
        let size = self.size_with_value(&value);
        if self.cap < size {
            return Ok(false);
        }
        self.add(value, size)?;
        Ok(true)
    }

    fn may_hold(&self, name: &[u16]) -> bool
        ensures { result ≡ may_hold self.now name.now }
    {
        !self.ended && (self.here.subkeys.len() == 0 && is_above_values(&self.here.values, name))
    }

    fn size_with_value(&self, value: &Value) -> usize
        requires size { self.now.size ≤ 16777216 }
        requires data { length value.now.bytes ≤ 49152 }
        ensures { result ≡ size_with_value self.now value.now }
    {
        self.size + (VALUE_BYTES + 2 * value.name.units().len() + value.bytes.as_slice().len())
    }

    fn add(&mut self, value: Value, size: usize) -> Result<(), AllocError>
        ensures { OnOk result (IsHeld self.old value size self.new) }
    {
        self.size = size;
        self.here.values.push(value)?;
        Ok(())
    }

    fn end(&mut self) -> Result<bool, AllocError>
        requires sound { IsSound self.old }
        ensures { Steps lines.Up result self.old self.new }
    {
        if self.ended {
            return Ok(false);
        }
        match self.above.pop() {
            Some(next) => {
                self.go_up(next)?;
                Ok(true)
            }
            None => {
                self.ended = true;
                Ok(true)
            }
        }
    }

    /// The innermost open key ends below this one.
    fn go_up(&mut self, next: Level) -> Result<(), AllocError>
        requires { IsOrdered self.old.here }
        ensures up { OnOk result (IsUp self.old next self.new) }
        ensures above { self.new.above.items ≡ self.old.above.items }
    {
        let level = mem::replace(&mut self.here, next);
        self.used = self.used.saturating_sub(level.part.as_slice().len() + 1);
        self.here.subkeys.push(level.into_key())?;
        Ok(())
    }

    /// The registry, when its root has ended.
    pub(crate) fn finish(self, cap: u32) -> Result<Registry, AllocError>
        requires sound { IsSound self }
        requires ended { self.ended ≡ true }
        requires same_cap { self.cap ≡ cap }
        requires range { IsCap cap }
        ensures cap { IfOk result (λ registry. registry.cap ≡ cap) }
        ensures keys { IfOk result (λ registry. contents_keys registry ≡ keys_of (level_node self.here)) }
    {
        let Walk {
            alloc,
            cap: _,
            above: _,
            here,
            ended: _,
            size: _,
            used: _,
        } = self;
        registry_of(alloc, &here.into_key(), cap)
    }
}

/// The registry with this root.
fn registry_of(alloc: Global, root: &Key, cap: u32) -> Result<Registry, AllocError>
    requires registry { IsRegistry (keys_of root.now) }
    requires fits { size (keys_of root.now) ≤ cap }
    requires range { IsCap cap }
    ensures cap { IfOk result (λ registry. registry.cap ≡ cap) }
    ensures keys { IfOk result (λ registry. contents_keys registry ≡ keys_of root.now) }
{
    let mut put = Put::new(alloc, Endian::Little);
    root.write(&mut put)?;
    match Registry::from_bytes(alloc, put.into_bytes().as_slice(), cap) {
        Ok(registry) => Ok(registry),
        Err(StateFault::Memory) => Err(AllocError),
        Err(StateFault::Bad { .. }) => unreachable!(),
    }
}

/// Whether these are the name and the creation number of a root.
fn is_root(part: &[u16], birth: u64) -> bool
    ensures { IsTrue result ↔ ((part.now ≡ []) × (birth ≡ 0)) }
{
    part.is_empty() && birth == 0
}

/// Whether a key may have the name, of whose units none is 0.
fn is_part(part: &[u16]) -> bool
    ensures { result ≡ is_part part.now }
{
    0 < part.len() && (part.len() <= MOST_PART && lacks_separator(part))
}

fn lacks_separator(part: &[u16]) -> bool
    ensures { result ≡ lacks_separator part.now }
{
    !part.contains(&SEPARATOR)
}

fn is_birth(birth: u64) -> bool
    ensures { result ≡ is_birth birth }
{
    0 < birth && birth < BIRTH_END
}

fn is_above_keys(keys: &[Key], part: &[u16]) -> bool
    ensures { result ≡ is_above (last_part keys.now) part.now }
{
    match keys.last() {
        Some(last) => cmp_folded(last.part(), part).is_lt(),
        None => true,
    }
}

fn is_above_values(values: &[Value], name: &[u16]) -> bool
    ensures { result ≡ is_above (last_value values.now) name.now }
{
    match values.last() {
        Some(last) => cmp_folded(last.name.units(), name).is_lt(),
        None => true,
    }
}

fn written_size(written: u64) -> usize
    ensures exact { result ≡ written_size written }
    ensures bound { result ≤ 8 }
{
    if written == 0 { 0 } else { 8 }
}
