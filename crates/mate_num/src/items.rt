//! A list that grows: the type behind every list of the product that takes memory.

ghost use Rattle.std.specs.Prelude.{◌≡◌, ◌<◌, ◌∷◌, ◌++◌, List, [], length, take, MatchResult, IfOk, OnOk, slice_get, IsTrue, ◌↔◌};
ghost use Rattle.std.specs.Vec.{vec_len, vec_capacity};
ghost use Rattle.std.specs.Option.{option_copied};

use crate::no_memory::NoMemory;
use std::alloc::Global;
use std::marker::Model;

/// Items in the order in which they were pushed. Contracts see the list of them.
#[derive(Drop)]
pub struct Items<T> {
    items: Vec<T>,
}

impl<T> Model for Items<T> {
    ghost Value = { List T };

    ghost view = { λ s. s.items.items };
}

impl<T> Items<T> {
    /// The empty list. It takes no memory.
    pub fn new(alloc: Global) -> Items<T>
        ensures { result ≡ [] }
    {
        Items {
            items: Vec::new(alloc),
        }
    }

    pub fn len(&self) -> usize
        ensures { result ≡ length self.now }
    {
        self.items.len()
    }

    pub fn is_empty(&self) -> bool
        ensures { IsTrue result ↔ (self.now ≡ []) }
    {
        self.items.is_empty()
    }

    /// The item at `index`, from 0; None exactly if `index` is the length or more.
    pub fn get(&self, index: usize) -> Option<&T>
        ensures { option_copied result ≡ slice_get self.now index }
    {
        self.items.get(index)
    }

    pub fn as_slice(&self) -> &[T]
        ensures { result.now ≡ self.now }
    {
        self.items.as_slice()
    }

    /// Appends `item`. `NoMemory` leaves the list as it was. The first item takes room for itself alone, since many
    /// lists of a script have one item.
    pub fn push(&mut self, item: T) -> Result<(), NoMemory>
    where
        T: Drop,
        ensures { MatchResult result (λ _. self.new ≡ self.old ++ item ∷ []) (λ _. self.new ≡ self.old) }
    {
        // (where there is room, the item is written in its place at once)
        if self.items.len() >= self.items.capacity() {
            make_room(&mut self.items)?;
        }
        self.items.push_reserved(item);
        Ok(())
    }

    /// Keeps the first `count` items, or all if there are fewer.
    pub fn cut(&mut self, count: usize)
    where
        T: Drop,
        ensures { self.new ≡ take count self.old }
    {
        self.items.truncate(count);
    }
}

/// Makes room for an item more at least: for one alone if it is the first.
#[inline(never)]
fn make_room<T>(items: &mut Vec<T>) -> Result<(), NoMemory>
    ensures same { items.new.items ≡ items.old.items }
    ensures room { OnOk result (vec_len items.new < vec_capacity items.new) }
{
    if items.is_empty() {
        items.reserve_exact(1)?;
    } else {
        items.reserve(1)?;
    }
    Ok(())
}
