//! The stores that were seen last.

use crate::fault::ViewFault;
use mate_num::{NODES_MAX, Store};
use std::alloc::Global;

/// The store of each node as it was seen last.
#[derive(Drop)]
pub struct Seen {
    stores: Vec<Option<Store>>,
}

impl Seen {
    /// No store was seen.
    pub fn new(alloc: Global) -> Result<Seen, ViewFault> {
        let mut stores = Vec::new(alloc);
        for _ in 0..NODES_MAX {
            stores.push(None)?;
        }
        Ok(Seen { stores })
    }

    /// A node's store as it was seen last, if it was.
    pub fn before(&self, node: u8) -> Option<&Store> {
        match self.stores.get(usize::from(node)) {
            Some(store) => store.as_ref(),
            None => None,
        }
    }

    /// A node's store is seen.
    pub fn take(&mut self, node: u8, store: &Store) {
        let place = usize::from(node);
        if place < self.stores.len() {
            self.stores[place] = Some(store.copy());
        }
    }
}

/// Whether two lists have the same values.
pub fn same_values(one: &[i16], other: &[i16]) -> bool {
    if one.len() != other.len() {
        return false;
    }
    for (value, same) in one.iter().zip(other) {
        if *value != *same {
            return false;
        }
    }
    true
}
