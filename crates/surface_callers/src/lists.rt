//! Lists: each type that is seen as a list has these five calls.

use mate_num::{Items, NoMemory};
use std::alloc::Global;

/// A list of one item, of whatever type; how many items it has, and whether the first is there.
pub fn a_list<T: Drop>(alloc: Global, item: T) -> Result<(Items<T>, usize, bool), NoMemory> {
    let mut items: Items<T> = Items::new(alloc);
    items.push(item)?;
    let count: usize = items.len();
    let all: &[T] = items.as_slice();
    let is_there = items.get(0).is_some() && !all.is_empty();
    Ok((items, count, is_there))
}
