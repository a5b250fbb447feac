//! The commands of `mate` from within a program, and the run of a node's script.

ghost use Rattle.node_programs.specs.ScriptSteps.{AreProgramsOf};

use mate_cli::{Status, mate, run_steps, run_steps_into};
use mate_files::{Files, Sink};
use mate_journal::{IntoFault, Programs, Report, RunFault};
use mate_num::NoMemory;
use script_reader::Steps;
use std::alloc::Global;
use vm_desc::Description;

/// Runs a command over your own files and outputs; the status of the process.
pub fn called<F: Files, S: Sink, E: Sink>(
    alloc: Global,
    words: &Vec<String>,
    files: &mut F,
    out: &mut S,
    err: &mut E,
) -> u8 {
    let status = mate(alloc, words, files, out, err);
    match status {
        Status::Ok | Status::LogFull => status.code(),
        Status::Usage | Status::FileFault | Status::SinkFault | Status::NoMemory => status.code(),
        Status::BadDescription | Status::BadSource | Status::BadScript => status.code(),
        Status::BadCapsule | Status::Refuted | Status::BadStream => status.code(),
    }
}

/// The report of a script; of a run that a full log ended, too.
pub fn report_of(
    alloc: Global,
    desc: &Description,
    steps: &Steps,
    programs: &Programs,
) -> Result<Report, NoMemory>
    requires { AreProgramsOf desc.now steps.now programs.now }
{
    match run_steps(alloc, desc, steps, programs) {
        Ok(report) | Err(RunFault::LogFull(report)) => Ok(report),
        Err(RunFault::NoMemory) => Err(NoMemory),
    }
}

/// Writes the report of a script while it runs.
pub fn written<S: Sink>(
    alloc: Global,
    desc: &Description,
    steps: &Steps,
    programs: &Programs,
    out: &mut S,
) -> Result<Report, IntoFault>
    requires { AreProgramsOf desc.now steps.now programs.now }
{
    run_steps_into(alloc, desc, steps, programs, out)
}
