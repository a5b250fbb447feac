//! A world with its files and its report.

ghost use Rattle.node_programs.specs.WorldPrograms.{AreProgramsOfWorld};
ghost use Rattle.script_steps.specs.World.{IsRightWorld};

use crate::programs::{are_of, programs_of_script};
use crate::same::are_same;
use crate::stopped::stopped;
use command_steps::machine_of;
use mate_files::{FILE_MAX, MemFiles};
use mate_journal::{Report, RunFault, StoredPrograms};
use report_text::read;
use script_reader::world_script;
use script_steps::World;
use std::alloc::{AllocError, Global};
use vm_shape::Description;
use world_sim::run_stored;

/// The most bytes of a report.
const REPORT_MAX: usize = 4_000_000_000;

/// A world's script, its machine and its sources by their names, and the report that its run should have.
#[derive(Drop)]
pub struct Case {
    name: String,
    files: MemFiles,
    script: String,
    report: String,
    // whether its text goes to a sink that fails, or runs out of memory, at each write in turn
    fails: bool,
}

impl Case {
    /// The case of a block: its name, and parts that begin with the name of a file.
    pub fn of(alloc: Global, block: &str) -> Result<Case, AllocError> {
        let mut case = Case {
            name: String::new(alloc),
            files: MemFiles::new(alloc),
            script: String::new(alloc),
            report: String::new(alloc),
            fails: false,
        };
        for (place, part) in block.split("\n-- ").enumerate() {
            if place == 0 {
                case.name = part.trim_start_matches("== ").to_string(alloc)?;
            } else {
                let (file, text) = part.split_once('\n').unwrap_or((part, ""));
                case.add(alloc, file, text)?;
            }
        }
        Ok(case)
    }

    /// Adds a file to the case.
    fn add(&mut self, alloc: Global, file: &str, text: &str) -> Result<(), AllocError> {
        match file {
            "report" => {
                let text = text.trim_end_matches('\n');
                self.report = format!(in alloc; "{text}\n")?;
            }
            "each write fails" => self.fails = true,
            "w.txt" => self.script = text.to_string(alloc)?,
            _ => {
                let _ = self.files.add(file, text.as_bytes());
            }
        }
        Ok(())
    }

    /// The case's name, and whether the run gives its report.
    pub fn answer(self, alloc: Global) -> Result<String, AllocError> {
        let Case {
            name,
            mut files,
            script,
            report,
            fails,
        } = self;
        let Ok(desc) = machine_of(alloc, &mut files, "v.toml") else {
            return format!(in alloc; "{name} no machine");
        };
        if script.len() > FILE_MAX {
            return format!(in alloc; "{name} too long");
        }
        let Ok(world) = world_script(alloc, &desc, script.as_bytes()) else {
            return format!(in alloc; "{name} no world");
        };
        let Some(programs) = programs_of_script(alloc, &mut files, &desc, &script)? else {
            return format!(in alloc; "{name} no programs");
        };
        if !are_of(&world, &programs) {
            return format!(in alloc; "{name} other programs");
        }
        if fails {
            let verdict = stopped(alloc, &desc, &world, &programs, &report)?;
            return format!(in alloc; "{name} {verdict}");
        }
        let verdict = ran(alloc, &desc, &world, &programs, &report)?;
        format!(in alloc; "{name} {verdict}")
    }
}

/// How the run of the world ends, compared with the case.
fn ran(
    alloc: Global,
    desc: &Description,
    world: &World,
    programs: &StoredPrograms,
    report: &str,
) -> Result<String, AllocError>
    requires { AreProgramsOfWorld desc.now world.now programs.now }
{
    match run_stored(alloc, desc, world, programs) {
        Ok(made) => told(alloc, desc, "whole", &made, report),
        Err(RunFault::LogFull(made)) => told(alloc, desc, "full", &made, report),
        Err(RunFault::NoMemory) => "no memory".to_string(alloc),
    }
}

/// How the run ended, how many records and events its report has, and whether it is the wanted one, if there is one.
fn told(
    alloc: Global,
    desc: &Description,
    end: &str,
    made: &Report,
    wanted: &str,
) -> Result<String, AllocError> {
    let records = record_count(made);
    let events = made.events();
    let verdict = verdict(alloc, desc, made, wanted);
    format!(in alloc; "{end} {records} {events}{verdict}")
}

fn record_count(report: &Report) -> usize {
    let mut count = report.air().len();
    for log in report.nodes() {
        count = count.saturating_add(log.entries().len());
    }
    count
}

fn verdict(alloc: Global, desc: &Description, made: &Report, wanted: &str) -> &'static str {
    if wanted.is_empty() {
        return "";
    }
    if wanted.len() > REPORT_MAX {
        return " too long";
    }
    match read(alloc, desc, wanted.as_bytes()) {
        Ok(report) if are_same(alloc, desc, made, &report) => " as wanted",
        Ok(_) => " another report",
        Err(_) => " no report",
    }
}
