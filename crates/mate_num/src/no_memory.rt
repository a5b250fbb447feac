//! The refusal that says that memory ran out.

ghost use Rattle.std.specs.Prelude.{codes, Some};

use std::alloc::{AllocError, AllocFailed};
use std::fmt;

/// Memory was refused. What the call would have changed is as it was, unless the call says otherwise.
#[derive(Clone, Copy)]
pub struct NoMemory;

impl fmt::Display for NoMemory {
    ghost output = { λ _. Some (codes "no memory") };

    fn fmt<W: fmt::Write>(&self, f: &mut fmt::Formatter<W>) -> fmt::Result {
        f.write_str("no memory")
    }
}

impl From<AllocError> for NoMemory {
    fn from(_error: AllocError) -> NoMemory {
        NoMemory
    }
}

impl<T: Drop> From<AllocFailed<T>> for NoMemory {
    fn from(_error: AllocFailed<T>) -> NoMemory {
        NoMemory
    }
}
