//! Stores and lists.

ghost use Rattle.std.specs.Prelude.{◌≡◌, length, IfOk, Some};

use mate_num::{Items, NoMemory, Store};
use std::alloc::Global;

pub fn a_copied_store_has_its_buffers(store: &Store) -> usize
    ensures { result ≡ length store.now.buffers.items }
{
    store.copy().buffers.len()
}

pub fn items_are_counted_from_0(alloc: Global) -> Result<Option<u8>, NoMemory>
    ensures { IfOk result (λ item. item ≡ Some 7) }
{
    let mut items = Items::new(alloc);
    items.push(7)?;
    items.push(8)?;
    Ok(items.get(0).copied())
}

pub fn a_cut_list_has_no_second_item(alloc: Global) -> Result<usize, NoMemory>
    ensures { IfOk result (λ len. len ≡ 1) }
{
    let mut items = Items::new(alloc);
    items.push(7)?;
    items.push(8)?;
    items.cut(1);
    Ok(items.len())
}
