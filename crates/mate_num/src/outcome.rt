//! What a run of a handler gives.

use crate::call::{Call, End};
use crate::items::Items;
use crate::store::Store;

/// Calls, in the order in which they were answered.
pub type Calls = Items<Call>;

/// What a run of a handler gives.
#[derive(Drop)]
pub struct Outcome {
    /// How far the run came.
    pub end: End,
    /// The store that it left.
    pub store: Store,
    /// The calls that were answered.
    pub calls: Calls,
}
