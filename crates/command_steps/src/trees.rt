//! Trees that are done with.

use std::mem;

/// What becomes of the trees of a source once they are done with.
#[derive(Clone, Copy)]
pub(crate) enum Trees {
    /// Their memory is free for what comes next.
    Freed,
    /// They stay where they are until the process ends. That is for a command that has one source: to free a tree takes
    /// about as long as to make it, and the system frees all memory at once.
    Left,
}

impl Trees {
    /// The tree is done with.
    pub(crate) fn done<T: Drop>(self, tree: T) {
        match self {
            Trees::Freed => {}
            Trees::Left => mem::forget(tree),
        }
    }
}
