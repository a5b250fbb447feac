//! What a context claims, and what is kept of one that waits.

use mate_num::{ContextId, LockSet};

/// A context and the set that it waits for or holds.
#[derive(Clone, Copy)]
pub struct Claim {
    pub ctx: ContextId,
    pub set: LockSet,
}

/// The first context, with nothing to lock: it fills an unused place.
impl Default for Claim {
    fn default() -> Claim {
        Claim {
            ctx: ContextId(0),
            set: LockSet::empty(),
        }
    }
}

/// A waiter's claim, and how many started contexts and earlier waiters it conflicts with.
#[derive(Clone, Copy, Default)]
pub(crate) struct Waiter {
    pub(crate) claim: Claim,
    pub(crate) blocked: u8,
}
