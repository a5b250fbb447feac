//! Reports as text: written whole, event by event, or summed up; and read back.

ghost use Rattle.std.specs.Prelude.{◌≤◌, length};
ghost use Rattle.report_writer.specs.Tidy.{IsTidy};

use mate_files::{Sink, SinkFault};
use mate_journal::{Aired, NodeLog, Report};
use report_text::{TextFault, brief, read, write, write_end, write_event};
use std::alloc::Global;
use vm_desc::Description;

/// Writes a report and its summary.
pub fn written<S: Sink>(desc: &Description, report: &Report, out: &mut S) -> Result<(), SinkFault>
    requires { IsTidy desc.now report.now }
{
    write(desc, report, out)?;
    brief(desc, report, out)
}

/// Writes the lines of one event of a node, and the last line.
pub fn written_by_hand<S: Sink>(
    desc: &Description,
    air: &[Aired],
    log: &NodeLog,
    out: &mut S,
) -> Result<(), SinkFault> {
    write_event(desc, air, log, 0, 0, out)?;
    write_end(1, 1, 1, true, out)
}

/// The report that a text has, or its first bad line.
pub fn read_back(alloc: Global, desc: &Description, bytes: &[u8]) -> Result<Report, Option<u32>>
    requires { length bytes.now ≤ 4000000000 }
{
    match read(alloc, desc, bytes) {
        Ok(report) => Ok(report),
        Err(TextFault::BadLine { line }) => Err(Some(line)),
        Err(TextFault::NoMemory) => Err(None),
    }
}
