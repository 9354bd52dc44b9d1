//! Reading on, item by item.

ghost use Rattle.std.specs.Prelude.{◌≡◌, ◌+◌, ◌≤◌, ◌<◌, [], length, zero, IfOk};
ghost use Rattle.registry_states.specs.Turns.{Grew, Reaches, Reads, Steps, course, level_behind, values_of};
ghost use Rattle.registry_states.specs.declared.ahead.Next.TheVariants as nexts;

use crate::ahead::{Ahead, Level, Next};
use crate::fault::StateFault;
use crate::item::{Head, Item};
use crate::read_fault::ReadFault;
use crate::reading::u32_field;
use crate::taking::{take_head, take_subkey, take_value};
use clus_names::Units;
use std::alloc::{AllocError, Global};
use wire_fields::Fields;

/// What one turn did.
#[derive(Clone, Copy)]
pub(crate) enum Step {
    /// It went on.
    On,
    /// Nothing is to come.
    End,
}

/// How far the bytes were read.
#[derive(Clone, Copy)]
pub(crate) struct Reach {
    /// Where the first item stands that isn't there whole.
    pub taken: usize,
    /// Where the field of it stands that is cut off.
    pub cut: usize,
}

/// A key may have 512 levels below it.
const MOST_DEPTH: u16 = 512;

/// Reads all items that are there whole.
pub(crate) fn read_items(
    alloc: Global,
    items: &mut Vec<Item>,
    ahead: &mut Ahead,
    fields: &mut Fields<'_>,
    end: usize,
) -> Result<Reach, StateFault>
    ensures grew { Grew items.old.items items.new.items }
    ensures reaches { Reaches result end items.old.items ahead.old fields.old items.new.items ahead.new }
{
    'items: loop {
        let taken = fields.place();
        match advance(alloc, items, ahead, fields, end) {
            Ok(Step::On) => {}
            Ok(Step::End) => return Ok(Reach { taken, cut: taken }),
            Err(ReadFault::Cut { place }) => return Ok(Reach { taken, cut: place }),
            Err(ReadFault::Bad { place }) => return Err(StateFault::Bad { place }),
            Err(ReadFault::Memory) => return Err(StateFault::Memory),
        }
    }
}

fn advance(
    alloc: Global,
    items: &mut Vec<Item>,
    ahead: &mut Ahead,
    fields: &mut Fields<'_>,
    end: usize,
) -> Result<Step, ReadFault>
    ensures { Steps result end items.old.items ahead.old fields.old items.new.items ahead.new fields.new }
{
    match &ahead.next {
        Next::Root => {
            ahead.next = read_root(alloc, items, fields, end)?;
            Ok(Step::On)
        }
        Next::Values { left, used, depth } => {
            let (left, used, depth) = (*left, *used, *depth);
            ahead.next = read_values(alloc, items, fields, left, used, depth, end)?;
            Ok(Step::On)
        }
        Next::Subkeys(level) => {
            if level.left == 0 {
                ahead.next = Next::Nothing;
                return Ok(Step::On);
            }
            let head = take_subkey(alloc, fields, level, end)?;
            let (after, next) = behind_head(alloc, level, &head)?;
            ahead.above.push(after)?;
            ahead.next = next;
            items.push(Item::Head(head))?;
            Ok(Step::On)
        }
        Next::Nothing => go_up(items, ahead, fields, end),
    }
}

/// Goes on with the key above; bytes behind the root are at fault at the first of them.
fn go_up(
    items: &[Item],
    ahead: &mut Ahead,
    fields: &Fields<'_>,
    end: usize,
) -> Result<Step, ReadFault>
    requires { ahead.old.next ≡ nexts.Nothing }
    ensures { Steps result end items.now ahead.old fields.now items.now ahead.new fields.now }
{
    match ahead.above.pop() {
        Some(level) => {
            ahead.next = Next::Subkeys(level);
            Ok(Step::On)
        }
        None => {
            if fields.left() != 0 {
                return Err(ReadFault::Bad {
                    place: fields.place(),
                });
            }
            Ok(Step::End)
        }
    }
}

fn read_root(
    alloc: Global,
    items: &mut Vec<Item>,
    fields: &mut Fields<'_>,
    end: usize,
) -> Result<Next, ReadFault>
    ensures { Reads course result end items.old.items nexts.Root fields.old items.new.items fields.new }
{
    let head = take_head(fields, no_name(alloc), end)?;
    let next = Next::Values {
        left: head.values,
        used: 0,
        depth: MOST_DEPTH,
    };
    items.push(Item::Head(head))?;
    Ok(next)
}

fn no_name(alloc: Global) -> Units
    ensures { result ≡ [] }
{
    Units::new(Vec::new(alloc))
}

fn read_values(
    alloc: Global,
    items: &mut Vec<Item>,
    fields: &mut Fields<'_>,
    left: u32,
    used: u16,
    depth: u16,
    end: usize,
) -> Result<Next, ReadFault>
    ensures { Reads course result end items.old.items (nexts.Values left used depth) fields.old items.new.items fields.new }
{
    if left == 0 {
        return read_count(items, fields, used, depth, end);
    }
    let value = take_value(alloc, fields, items, end)?;
    items.push(Item::Value(value))?;
    Ok(Next::Values {
        left: left - 1,
        used,
        depth,
    })
}

fn read_count(
    items: &mut Vec<Item>,
    fields: &mut Fields<'_>,
    used: u16,
    depth: u16,
    end: usize,
) -> Result<Next, ReadFault>
    ensures { Reads course result end items.old.items (nexts.Values zero used depth) fields.old items.new.items fields.new }
{
    let left = u32_field(fields, end)?;
    items.push(Item::Subkeys(left))?;
    Ok(Next::Subkeys(Level {
        left,
        used,
        depth,
        last: None,
    }))
}

/// What is left of the level behind the head of its next subkey, and what comes before it.
fn behind_head(alloc: Global, level: &Level, head: &Head) -> Result<(Level, Next), AllocError>
    requires some { zero < level.now.left }
    requires short { level.now.used + length head.now.part ≤ 1278 }
    requires deep { zero < level.now.depth }
    ensures level { IfOk result (λ x. x.0 ≡ level_behind level.now head.now) }
    ensures next { IfOk result (λ x. x.1 ≡ values_of level.now head.now) }
{
    let after = Level {
        left: level.left - 1,
        used: level.used,
        depth: level.depth,
        last: Some(head.part.copy(alloc)?),
    };
    let next = Next::Values {
        left: head.values,
        used: level.used + head.part.as_slice().len() as u16 + 1,
        depth: level.depth - 1,
    };
    Ok((after, next))
}
