//! The answers to cases of worlds that are run: how each ended, and whether its report is the one that it should have.

use crate::cases::Case;
use std::alloc::{AllocError, Global};

/// The answer to the case of a block: its name, and what the run of its world gives.
pub fn answer(alloc: Global, block: &str) -> Result<String, AllocError> {
    Case::of(alloc, block)?.answer(alloc)
}
