//! How the writing of a run ended.

ghost use Rattle.std.specs.Prelude.{◌≡◌, [], false};

use crate::write_fault::WriteFault;
use mate_journal::{Airs, NodeLogs, Report};
use std::alloc::Global;

/// How the writing of a run ended: how many events ended, whether the run was whole, and whether their lines were written.
#[derive(Clone, Copy)]
pub struct Pass {
    pub events: u64,
    pub whole: bool,
    pub result: Result<(), WriteFault>,
}

/// The empty report, of a run that didn't begin.
pub fn nothing_run(alloc: Global) -> Report
    ensures { result ≡ record { nodes = []; air = []; events = 0; whole = false } }
{
    Report::new(NodeLogs::new(alloc), Airs::new(alloc), 0, false)
}
