//! Runs of a script that gives context 0, in which no invocation is live, a number of turns of one instruction, and
//! then shows the store: whether the report is whole, how many events it has, and how many entries of each kind.

ghost use Rattle.std.specs.Prelude.{[], IfOk};
ghost use Rattle.node_programs.specs.ScriptSteps.{AreProgramsOf};

use mate_journal::{Entry, Programs, Report, RunFault, Stamped};
use mate_num::{ContextId, NoMemory};
use node_runs::run_steps;
use script_steps::{Step, Steps};
use std::alloc::{AllocError, Global};
use vm_shape::Description;

pub fn answer(alloc: Global, desc: &Description, case: &str) -> Result<String, AllocError> {
    let Ok(turns) = case.parse::<u32>() else {
        return "no number".to_string(alloc);
    };
    let Ok(script) = idle_script(alloc, desc, turns) else {
        return "no memory".to_string(alloc);
    };
    match run_steps(alloc, desc, &script, &Programs::new(alloc)) {
        Ok(report) => counted(alloc, "whole", &report),
        Err(RunFault::LogFull(report)) => counted(alloc, "full", &report),
        Err(RunFault::NoMemory) => "no memory".to_string(alloc),
    }
}

/// The script of this many turns, and a show.
#[tactic(auto, using(crate::proofs::IdleLemmas::idle_programs, crate::proofs::IdleLemmas::idle_pushed))]
fn idle_script(alloc: Global, desc: &Description, turns: u32) -> Result<Steps, NoMemory>
    ensures { IfOk result (λ script. AreProgramsOf desc.now script []) }
{
    let _contexts = desc.contexts();
    let mut script = Steps::new(alloc);
    for _ in 0..turns {
        script.push(Step::Step {
            ctx: ContextId(0),
            n: 1,
        })?;
    }
    script.push(Step::Show)?;
    Ok(script)
}

/// How the run ended, its events, and the entries of each kind.
fn counted(alloc: Global, end: &str, report: &Report) -> Result<String, AllocError> {
    let Some(log) = report.nodes().first() else {
        return "no node".to_string(alloc);
    };
    let entries = log.entries();
    let voids = entries.iter().filter(|told| is_void(told)).count();
    let events = report.events();
    let rest = entries.len() - voids;
    format!(in alloc; "{end} events {events} void {voids} other {rest}")
}

fn is_void(told: &Stamped) -> bool {
    matches!(told.entry, Entry::Void { .. })
}
