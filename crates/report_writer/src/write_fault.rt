//! Why a run was not written whole.

ghost use Rattle.std.specs.Prelude.{◌≡◌};
ghost use Rattle.report_writer.specs.Writing.{write_ended, into_fault, write_fault_of};

use mate_files::SinkFault;
use mate_journal::{IntoFault, Report};

/// Why a run whose report is written as its events end was not written whole.
#[derive(Clone, Copy)]
pub enum WriteFault {
    /// There were 1,000,000 records or more, and an event was left. What was recorded was written whole.
    LogFull,
    /// Memory was refused, to the run or to the sink.
    NoMemory,
    /// The sink couldn't be written.
    Sink,
}

impl WriteFault {
    /// The same fault, with the report of the events that ended.
    pub fn with_report(self, report: Report) -> IntoFault
        ensures { result ≡ into_fault self report }
    {
        match self {
            WriteFault::LogFull => IntoFault::LogFull(report),
            WriteFault::NoMemory => IntoFault::NoMemory(report),
            WriteFault::Sink => IntoFault::Sink(report),
        }
    }
}

/// The fault of a run that the sink stopped.
pub fn stopped(fault: SinkFault) -> WriteFault
    ensures { result ≡ write_fault_of fault }
{
    match fault {
        SinkFault::Failed => WriteFault::Sink,
        SinkFault::NoMemory => WriteFault::NoMemory,
    }
}

/// How a run ends, by whether it was whole and how its last line was written.
pub fn ended(whole: bool, put: Result<(), SinkFault>) -> Result<(), WriteFault>
    ensures { result ≡ write_ended whole put }
{
    match put {
        Ok(()) if whole => Ok(()),
        Ok(()) => Err(WriteFault::LogFull),
        Err(fault) => Err(stopped(fault)),
    }
}
