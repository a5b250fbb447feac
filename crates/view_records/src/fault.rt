//! Why a view of a report isn't made.

use mate_files::SinkFault;
use mate_num::NoMemory;
use std::alloc::{AllocError, AllocFailed};

/// Why a view isn't made.
#[derive(Clone, Copy)]
pub enum ViewFault {
    /// The first line, counted from 1, that doesn't fit after the lines before it. `named` says whether it is a record
    /// that names what only some machines have, so that it may be right for another machine.
    BadLine { line: u64, named: bool },
    /// The report can't be read further.
    Unread,
    /// The output can't be written.
    Unwritten,
    /// Memory was refused.
    NoMemory,
}

impl From<AllocError> for ViewFault {
    fn from(_error: AllocError) -> ViewFault {
        ViewFault::NoMemory
    }
}

impl<T: Drop> From<AllocFailed<T>> for ViewFault {
    fn from(_error: AllocFailed<T>) -> ViewFault {
        ViewFault::NoMemory
    }
}

impl From<NoMemory> for ViewFault {
    fn from(_error: NoMemory) -> ViewFault {
        ViewFault::NoMemory
    }
}

impl From<SinkFault> for ViewFault {
    fn from(fault: SinkFault) -> ViewFault {
        match fault {
            SinkFault::Failed => ViewFault::Unwritten,
            SinkFault::NoMemory => ViewFault::NoMemory,
        }
    }
}
