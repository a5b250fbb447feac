//! A world that runs, into a sink of your own or to its report; and the judgement of a report.

ghost use Rattle.node_programs.specs.Right.{AreRightPrograms};
ghost use Rattle.node_programs.specs.WorldPrograms.{AreProgramsOfWorld};
ghost use Rattle.report_writer.specs.Tidy.{IsTidy};

use mate_files::Sink;
use mate_journal::{IntoFault, Programs, Report, RunFault};
use mate_num::NoMemory;
use report_audit::{Law, Verdict, audit};
use script_reader::World;
use std::alloc::Global;
use vm_desc::Description;
use world_sim::{run, run_into};

/// The report of a world; of a run that a full log ended, too.
pub fn report_of(
    alloc: Global,
    desc: &Description,
    world: &World,
    programs: &Programs,
) -> Result<Report, NoMemory>
    requires { AreProgramsOfWorld desc.now world.now programs.now }
{
    match run(alloc, desc, world, programs) {
        Ok(report) | Err(RunFault::LogFull(report)) => Ok(report),
        Err(RunFault::NoMemory) => Err(NoMemory),
    }
}

/// Writes the report of a world while it runs; what ran, however the run ended.
pub fn written<S: Sink>(
    alloc: Global,
    desc: &Description,
    world: &World,
    programs: &Programs,
    out: &mut S,
) -> Report
    requires { AreProgramsOfWorld desc.now world.now programs.now }
{
    match run_into(alloc, desc, world, programs, out) {
        Ok(report) => report,
        Err(IntoFault::LogFull(report) | IntoFault::NoMemory(report) | IntoFault::Sink(report)) =>
            report,
    }
}

/// The node whose journal breaks a law, if a report isn't serial, and whether the law is that of serial replay.
pub fn refuted(
    alloc: Global,
    desc: &Description,
    programs: &Programs,
    report: &Report,
) -> Result<Option<(u8, bool)>, NoMemory>
    requires tidy { IsTidy desc.now report.now }
    requires right { AreRightPrograms desc.now programs.now }
{
    match audit(alloc, desc, programs, report)? {
        Verdict::Serial => Ok(None),
        Verdict::Refuted { node, law } => Ok(Some((node, is_of_replay(law)))),
    }
}

fn is_of_replay(law: Law) -> bool {
    match law {
        Law::D8 => true,
        Law::D7 | Law::Image | Law::D9 | Law::D10 | Law::D11 => false,
    }
}
