//! The tree that items tell.

ghost use Rattle.std.specs.Prelude.{◌≡◌, Some, None, IsSome, IfOk};
ghost use Rattle.std.specs.Vec.Iter.{into_iter_items};
ghost use Rattle.clus_names.specs.Folding.{name_cmp};
ghost use Rattle.registry_defs.specs.Nodes.{name_of};
ghost use Rattle.registry_defs.specs.Rising.{Rising};
ghost use Rattle.registry_tree.specs.Values.{RisingValues, entries_of};
ghost use Rattle.registry_states.specs.Assembled.{count_in, head_in, node_in, nodes_in, value_in, values_in};

use crate::item::{Head, Item};
use registry_tree::{Key, Value};
use std::alloc::{AllocError, Global};
use std::vec::IntoIter;

/// The key that the items begin with, and all below it, so many levels deep at most.
#[cycle(assemble)]
pub(crate) fn assemble(
    alloc: Global,
    items: &mut IntoIter<Item, Global>,
    depth: u16,
) -> Result<Key, AllocError>
    requires { IsSome (node_in depth (into_iter_items items.old)) }
    ensures { IfOk result (λ key. node_in depth (into_iter_items items.old) ≡ Some (key, into_iter_items items.new)) }
{
    let Head {
        part,
        birth,
        written,
        values,
    } = next_head(items);
    let values = assemble_values(alloc, items, values)?;
    let count = next_count(items);
    let subkeys = assemble_subkeys(alloc, items, count, depth - 1)?;
    Ok(Key::of(part, birth, written, values, subkeys))
}

#[cycle(assemble)]
fn assemble_subkeys(
    alloc: Global,
    items: &mut IntoIter<Item, Global>,
    count: u32,
    depth: u16,
) -> Result<Vec<Key>, AllocError>
    requires { IsSome (nodes_in (node_in depth) count None (into_iter_items items.old)) }
    ensures told { IfOk result (λ subkeys. nodes_in (node_in depth) count None (into_iter_items items.old) ≡ Some (subkeys.items, into_iter_items items.new)) }
    ensures rising { IfOk result (λ subkeys. Rising name_cmp name_of subkeys.items) }
{
    let mut subkeys = Vec::new(alloc);
    'subkeys: for _ in 0..count {
        let next = assemble(alloc, items, depth)?;
        subkeys.push(next)?;
    }
    Ok(subkeys)
}

fn assemble_values(
    alloc: Global,
    items: &mut IntoIter<Item, Global>,
    count: u32,
) -> Result<Vec<Value>, AllocError>
    requires { IsSome (values_in count None (into_iter_items items.old)) }
    ensures told { IfOk result (λ values. values_in count None (into_iter_items items.old) ≡ Some (entries_of values.items, into_iter_items items.new)) }
    ensures rising { IfOk result (λ values. RisingValues values.items) }
{
    let mut values = Vec::new(alloc);
    'values: for _ in 0..count {
        values.push(next_value(items))?;
    }
    Ok(values)
}

fn next_head(items: &mut IntoIter<Item, Global>) -> Head
    requires { IsSome (head_in (into_iter_items items.old)) }
    ensures { head_in (into_iter_items items.old) ≡ Some (result, into_iter_items items.new) }
{
    match items.next() {
        Some(Item::Head(head)) => head,
        Some(Item::Value(_)) => unreachable!(),
        Some(Item::Subkeys(_)) => unreachable!(),
        None => unreachable!(),
    }
}

fn next_value(items: &mut IntoIter<Item, Global>) -> Value
    requires { IsSome (value_in (into_iter_items items.old)) }
    ensures { value_in (into_iter_items items.old) ≡ Some (result, into_iter_items items.new) }
{
    match items.next() {
        Some(Item::Value(value)) => value,
        Some(Item::Head(_)) => unreachable!(),
        Some(Item::Subkeys(_)) => unreachable!(),
        None => unreachable!(),
    }
}

fn next_count(items: &mut IntoIter<Item, Global>) -> u32
    requires { IsSome (count_in (into_iter_items items.old)) }
    ensures { count_in (into_iter_items items.old) ≡ Some (result, into_iter_items items.new) }
{
    match items.next() {
        Some(Item::Subkeys(count)) => count,
        Some(Item::Head(_)) => unreachable!(),
        Some(Item::Value(_)) => unreachable!(),
        None => unreachable!(),
    }
}
