//! The run of a world.

ghost use Rattle.node_programs.specs.WorldPrograms.{AreProgramsOfWorld};
ghost use Rattle.world_run_laws.specs.Promise.{WorldRunGives};

use mate_journal::{
    NodeLog, NodeLogs, Programs, RECORDS_MAX, Report, RunFault, StoredPrograms, stored,
};
use mate_num::Stamp;
use radio_sim::SharedEvent;
use script_steps::World;
use std::alloc::Global;
use vm_shape::Description;
use world_event::step;
use world_run_laws::{reports_keep_the_promise, states_are_sound};
use world_state::{Effect, Simulation, Written, report_of, see_stores};

/// Runs a world on nodes of this machine, with the programs of its files: each event is the next that is due, and at the end
/// each node's store is seen. `LogFull` comes exactly if there are 1,000,000 records or more and an event is left, with the
/// report so far. It is for callers from outside: it copies the programs' images, and runs with these.
pub fn run(
    alloc: Global,
    desc: &Description,
    world: &World,
    programs: &Programs,
) -> Result<Report, RunFault>
    requires { AreProgramsOfWorld desc.now world.now programs.now }
    ensures { WorldRunGives desc.now world.now programs.now result }
{
    let programs = stored(alloc, programs)?;
    run_stored(alloc, desc, world, &programs)
}

/// Runs a world as `run` does, with programs that are stored.
pub fn run_stored(
    alloc: Global,
    desc: &Description,
    world: &World,
    programs: &StoredPrograms,
) -> Result<Report, RunFault>
    requires { AreProgramsOfWorld desc.now world.now programs.now }
    ensures { WorldRunGives desc.now world.now programs.now result }
{
    reports_keep_the_promise();
    states_are_sound();
    let logs = NodeLogs::empty(alloc, world.nodes)?;
    let mut sim = Simulation::start(alloc, desc, world, programs)?;
    // (nothing is let go, so nothing takes its place)
    let mut room = NodeLog::new(alloc);
    let mut effect = Effect::none();
    let mut event = SharedEvent::Planned(0);
    for events in 0..u64::MAX {
        let Some(time) = sim.radio.next_into(&mut event) else {
            let at = Stamp {
                event: events + 1,
                time: world.until,
            };
            see_stores(&mut sim.motes, at)?;
            return Ok(report_of(logs, sim, events, true));
        };
        if sim.records >= RECORDS_MAX {
            return Err(RunFault::LogFull(report_of(logs, sim, events, false)));
        }
        let at = Stamp {
            event: events + 1,
            time,
        };
        step(
            &mut sim,
            desc,
            world,
            programs,
            &event,
            at,
            Written::Kept,
            false,
            &mut room,
            &mut effect,
        )?;
    }
    // (more events than 64 bits count)
    Err(RunFault::NoMemory)
}
