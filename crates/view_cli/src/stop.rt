//! Why a view isn't made, as the program says it.

use crate::plain::write_plain;
use command_refusals::{Refusal, Status};
use mate_files::{MemSink, Pen, Sink};
use std::alloc::Global;
use view_records::ViewFault;

/// Why a view isn't made.
#[derive(Drop)]
pub enum Stop {
    /// For a refusal that `mate` has, too.
    Refused(Refusal),
    /// The report's first line, counted from 1, that doesn't fit after the lines before it; `named` says whether it
    /// may be a line of another machine's report.
    BadReport { line: u64, named: bool },
    /// The report can't be read.
    Unread,
}

impl From<Refusal> for Stop {
    fn from(refusal: Refusal) -> Stop {
        Stop::Refused(refusal)
    }
}

impl From<ViewFault> for Stop {
    fn from(fault: ViewFault) -> Stop {
        match fault {
            ViewFault::BadLine { line, named } => Stop::BadReport { line, named },
            ViewFault::Unread => Stop::Unread,
            ViewFault::Unwritten => Stop::Refused(Refusal::SinkFault),
            ViewFault::NoMemory => Stop::Refused(Refusal::NoMemory),
        }
    }
}

impl Stop {
    /// Writes the line that says why, without control characters, and returns the status: 11 for a bad line of a report,
    /// else that of `mate`. `report` is the name of the report's file, and `machine` that of its machine's.
    pub fn tell<E: Sink>(&self, alloc: Global, report: &str, machine: &str, err: &mut E) -> Status {
        let mut line = MemSink::new(alloc);
        let status = self.say(report, machine, &mut line);
        write_plain(line.bytes(), err);
        status
    }

    fn say<E: Sink>(&self, report: &str, machine: &str, err: &mut E) -> Status {
        let mut pen = Pen::new();
        match self {
            Stop::Refused(refusal) => refusal.refuse(err),
            Stop::BadReport { line, named } => {
                pen.text(err, "bad report line ");
                pen.number(err, *line);
                if *named {
                    say_machine(machine, &mut pen, err);
                }
                pen.text(err, "\n");
                Status::Refuted
            }
            Stop::Unread => {
                pen.text(err, "file fault ");
                pen.text(err, report);
                pen.text(err, "\n");
                Status::FileFault
            }
        }
    }
}

/// Says that the report may be of another machine.
fn say_machine<E: Sink>(machine: &str, pen: &mut Pen, err: &mut E) {
    if machine == "builtin" {
        pen.text(
            err,
            ", which the built-in machine doesn't write: is --vm missing?",
        );
    } else {
        pen.text(err, ", which the machine of --vm ");
        pen.text(err, machine);
        pen.text(err, " doesn't write: is it the report's?");
    }
}
