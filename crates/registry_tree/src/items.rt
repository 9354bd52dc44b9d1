//! Lists of any elements.

ghost use Rattle.std.specs.Prelude.{◌≡◌, ◌≤◌, insert, length, option_copied, slice_get, OnOk, OnErr};

use std::alloc::AllocError;

pub fn item_at<T>(items: &[T], index: usize) -> Option<&T>
    ensures { option_copied result ≡ slice_get items.now index }
{
    if index < items.len() {
        Some(&items[index])
    } else {
        None
    }
}

/// Inserts an element; a list with one takes room for one, since most keys have few values and subkeys.
pub fn insert_at<T: Drop>(items: &mut Vec<T>, index: usize, item: T) -> Result<(), AllocError>
    requires { index ≤ length items.old.items }
    ensures ok { OnOk result (items.new.items ≡ insert items.old.items index item) }
    ensures err { OnErr result (items.new.items ≡ items.old.items) }
{
    if items.is_empty() {
        items.reserve_exact(1)?;
    }
    items.insert(index, item)?;
    Ok(())
}
