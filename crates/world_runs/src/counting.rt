//! The run of a world that is counted as its events end.

ghost use Rattle.std.specs.Prelude.{◌≡◌, ◌<◌, ◌*◌, ◌^◌, ℕ, length, All, IfOk, OnOk};
ghost use Rattle.mate_journal.specs.Log.{IsEmpty};
ghost use Rattle.mate_journal.specs.NodeScript.{Whole};
ghost use Rattle.node_programs.specs.WorldPrograms.{AreProgramsOfWorld};
ghost use Rattle.report_writer.specs.Runs.{IsRunSummary};
ghost use Rattle.report_writer.specs.Tally.{IsUpTo};
ghost use Rattle.world_run_laws.specs.Promise.{IsReportOfWorld};
ghost use Rattle.world_state.specs.Ranging.{AreInRange};
ghost use Rattle.world_state.specs.Running.{StandsAfter, StandsAtNext};
ghost use Rattle.world_state.specs.Telling.{LogsAreKept};
ghost use Rattle.world_run_laws.specs.Coming.{code_world};
ghost use Rattle.world_state.specs.Motes.{plain_effect};
ghost use Rattle.world_runs.specs.Counting.{IsCounted, IsCountedBehind, AreCounted, CountsHand, IsTallied, IsTalliedBefore, IsSmallTally};
ghost use Rattle.world_runs.specs.Counting.{MayCount, StartsCounted};
ghost use Rattle.world_runs.specs.Writing.{StandsAtEnd};

use crate::pieces::logs_are_kept;
use mate_journal::{NodeLog, RECORDS_MAX, StoredPrograms};
use mate_num::{NoMemory, Stamp};
use radio_sim::SharedEvent;
use report_writer::{LogTally, RunTally, Summary};
use script_steps::World;
use std::alloc::Global;
use std::mem;
use vm_shape::Description;
use world_event::step;
use world_run_laws::{reports_keep_the_promise, states_are_sound};
use world_state::{Effect, Mote, Simulation, Written, forget_all, may_tell, see_stores};

/// Runs a world as `run` does, and gives the summary of its report. What a node recorded in an event, and what happened on the air in it,
/// is counted and then forgotten before the next one, so that a long run takes no more memory than its nodes and its longest event. The
/// memory of the nodes is left to the end of the process.
pub fn sum_world(
    alloc: Global,
    desc: &Description,
    world: &World,
    programs: &StoredPrograms,
) -> Result<Summary, NoMemory>
    requires { AreProgramsOfWorld desc.now world.now programs.now }
    ensures { IfOk result (IsRunSummary desc.now (IsReportOfWorld desc.now world.now programs.now)) }
{
    let mut tally = RunTally::new(alloc, world.nodes, desc.handlers.len())?;
    let sim = Simulation::start(alloc, desc, world, programs)?;
    logs_are_kept(sim.motes.as_slice());
    count_event(&mut tally, &sim, 0);
    sum_started(alloc, desc, world, programs, sim, tally)
}

/// Runs a world whose start was counted. It isn't inlined, so that it takes no room on the stack yet where that is deepest: while programs
/// are made ready.
#[inline(never)]
fn sum_started(
    alloc: Global,
    desc: &Description,
    world: &World,
    programs: &StoredPrograms,
    mut sim: Simulation,
    mut tally: RunTally,
) -> Result<Summary, NoMemory>
    requires right { AreProgramsOfWorld desc.now world.now programs.now }
    requires starts { StartsCounted (length desc.now.handlers.items) (code_world desc.now world.now programs.now) sim tally }
    ensures { IfOk result (IsRunSummary desc.now (IsReportOfWorld desc.now world.now programs.now)) }
{
    reports_keep_the_promise();
    states_are_sound();
    let mut room = NodeLog::new(alloc);
    let mut effect = Effect::none();
    let mut event = SharedEvent::Planned(0);
    for events in 0..u64::MAX {
        let Some(time) = sim.radio.next_into(&mut event) else {
            return sum_ending(desc, world, programs, sim, events, tally);
        };
        if sim.records >= RECORDS_MAX {
            return Ok(tally.summary(events, false));
        }
        let at = Stamp {
            event: events + 1,
            time,
        };
        count_step(
            desc,
            world,
            programs,
            &mut sim,
            &event,
            at,
            &mut room,
            &mut effect,
            &mut tally,
        )?;
    }
    // (more events than 64 bits count)
    Err(NoMemory)
}

/// The event comes, with this stamp, and what was recorded in it is counted. If a next one may come, it is then forgotten, and the room of
/// the node's log is spare again.
fn count_step(
    desc: &Description,
    world: &World,
    programs: &StoredPrograms,
    sim: &mut Simulation,
    event: &SharedEvent,
    at: Stamp,
    room: &mut NodeLog,
    effect: &mut Effect,
    tally: &mut RunTally,
) -> Result<(), NoMemory>
    requires right { AreProgramsOfWorld desc.now world.now programs.now }
    requires stands { StandsAtNext (code_world desc.now world.now programs.now) event.now at sim.old }
    requires kept { LogsAreKept sim.old.motes.items }
    requires empty { IsEmpty room.old }
    requires plain { effect.old ≡ plain_effect }
    requires ranges { AreInRange sim.old }
    requires counted { IsTallied (length desc.now.handlers.items) tally.old sim.old }
    requires small { IsSmallTally tally.old }
    ensures stands { OnOk result (StandsAfter (code_world desc.now world.now programs.now) at.event sim.new) }
    ensures kept { OnOk result (LogsAreKept sim.new.motes.items) }
    ensures ranges { OnOk result (AreInRange sim.new) }
    ensures counted { OnOk result (IsTallied (length desc.now.handlers.items) tally.new sim.new) }
    ensures small { OnOk result (IsSmallTally tally.new) }
    ensures empty { IsEmpty room.new }
    ensures plain { OnOk result (effect.new ≡ plain_effect) }
{
    let trades = may_tell(desc, event);
    let node = step(
        sim,
        desc,
        world,
        programs,
        event,
        at,
        Written::Forgotten,
        trades,
        room,
        effect,
    )?;
    count_event(tally, sim, node);
    sim.leave(node, trades, room);
    Ok(())
}

/// Each node's store is seen and counted, and so the run ends. The memory of the radio is free for these stores. That of the nodes isn't
/// freed piece by piece: to free them takes about as long as to make them.
#[inline(never)]
fn sum_ending(
    desc: &Description,
    world: &World,
    programs: &StoredPrograms,
    sim: Simulation,
    events: u64,
    mut tally: RunTally,
) -> Result<Summary, NoMemory>
    requires right { AreProgramsOfWorld desc.now world.now programs.now }
    requires ends { StandsAtEnd (code_world desc.now world.now programs.now) Whole events sim }
    requires few { events < 18446744073709551615 }
    requires ranges { AreInRange sim }
    requires counted { IsTallied (length desc.now.handlers.items) tally sim }
    requires small { IsSmallTally tally }
    ensures { IfOk result (IsRunSummary desc.now (IsReportOfWorld desc.now world.now programs.now)) }
{
    reports_keep_the_promise();
    let at = Stamp {
        event: events + 1,
        time: world.until,
    };
    let Simulation {
        radio,
        mut motes,
        ..
    } = sim;
    drop(radio);
    forget_all(&mut motes)?;
    see_stores(&mut motes, at)?;
    logs_are_kept(motes.as_slice());
    count_stores(&mut tally.nodes, motes.as_slice());
    mem::forget(motes);
    Ok(tally.summary(events, true))
}

/// Counts what a node and the radio have at hand.
#[inline(always)]
fn count_event(tally: &mut RunTally, sim: &Simulation, node: u8)
    requires node { node < length sim.now.motes.items }
    requires count { length tally.old.nodes.items ≡ length sim.now.motes.items }
    requires few { MayCount tally.old node }
    ensures counted { (n : ℕ) → IsTalliedBefore n tally.old sim.now node → IsTallied n tally.new sim.now }
    ensures small { IsSmallTally tally.new }
{
    let at = usize::from(node);
    let mote = &sim.motes[at];
    count_kept(&mut tally.nodes[at], mote);
    tally.air.add_all(sim.radio.air());
}

/// Counts what each node has at hand.
fn count_stores(tallies: &mut Vec<LogTally>, motes: &[Mote])
    requires count { length tallies.old.items ≡ length motes.now }
    requires few { All (IsUpTo (2 ^ 56)) tallies.old.items }
    ensures counted { (n : ℕ) → AreCounted (IsCountedBehind n) tallies.old.items motes.now
        → AreCounted (IsCounted n) tallies.new.items motes.now }
    ensures small { All (IsUpTo (3 * 2 ^ 56)) tallies.new.items }
{
    let mut node = 0;
    for mote in motes {
        count_kept(&mut tallies[node], mote);
        node += 1;
    }
}

/// Counts what the node has at hand.
fn count_kept(tally: &mut LogTally, mote: &Mote)
    requires { IsUpTo (2 ^ 63) tally.old }
    ensures { CountsHand tally.old tally.new mote.now }
{
    tally.add_all(mote.node.kept().entries());
}
