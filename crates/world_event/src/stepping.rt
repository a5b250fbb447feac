//! The next event of a world: it comes to its node, and what it records is counted.

ghost use Rattle.std.specs.Prelude.{◌≡◌, ◌+◌, IfOk, OnOk};
ghost use Rattle.mate_journal.specs.Log.{IsEmpty};
ghost use Rattle.world_state.specs.Motes.{plain_effect};
ghost use Rattle.world_run_laws.specs.Coming.{code_world};
ghost use Rattle.node_programs.specs.WorldPrograms.{AreProgramsOfWorld};
ghost use Rattle.world_state.specs.Running.{StandsAfter, StandsAtNext};
ghost use Rattle.world_state.specs.Ranging.{AreInRange};
ghost use Rattle.world_state.specs.Telling.{HasComeOn, LogsAreKept};
ghost use Rattle.world_event.specs.Placing.{NamesPart, named_node};

use crate::event::perform;
use journal_laws::{LogSize, air_is_in_range_from, log_is_in_range_from};
use mate_journal::{NodeLog, StoredPrograms};
use mate_num::{NoMemory, Stamp};
use radio_sim::SharedEvent;
use script_steps::World;
use vm_shape::Description;
use world_laws::text_grows_by_events;
use world_run_laws::states_are_sound;
use world_state::{Effect, Simulation, Written};

/// The event comes, with this stamp. What its node and the radio recorded before it is forgotten, if that is to be forgotten, and
/// the node then has the spare room, if it trades. It answers its node. The effect is nothing before it and after it. It is
/// inlined into the loop of a run.
#[inline(always)]
pub fn step(
    sim: &mut Simulation,
    desc: &Description,
    world: &World,
    programs: &StoredPrograms,
    event: &SharedEvent,
    at: Stamp,
    written: Written,
    trades: bool,
    room: &mut NodeLog,
    effect: &mut Effect,
) -> Result<u8, NoMemory>
    requires right { AreProgramsOfWorld desc.now world.now programs.now }
    requires stands { StandsAtNext (code_world desc.now world.now programs.now) event.now at sim.old }
    requires empty { IsEmpty room.old }
    requires plain { effect.old ≡ plain_effect }
    ensures stands { OnOk result (StandsAfter (code_world desc.now world.now programs.now) at.event sim.new) }
    ensures adds { IfOk result (HasComeOn written at.event sim.old sim.new) }
    ensures kept { OnOk result (LogsAreKept sim.old.motes.items → LogsAreKept sim.new.motes.items) }
    ensures ranges { OnOk result (AreInRange sim.old → AreInRange sim.new) }
    ensures empty { IsEmpty room.new }
    ensures plain { OnOk result (effect.new ≡ plain_effect) }
{
    states_are_sound();
    text_grows_by_events();
    let number = node_of(world, event);
    sim.let_go(number, written, trades, room);
    let mote = &mut sim.motes[usize::from(number)];
    let before = mote.node.kept();
    let size = LogSize::of(before);
    let entries = mote.node.told();
    let air = sim.radio.aired();
    let heard = sim.radio.air().len();
    perform(
        &mut sim.radio,
        mote,
        desc,
        world,
        programs,
        number,
        event,
        at,
        effect,
    )?;
    let after = mote.node.kept();
    log_is_in_range_from(after, size);
    air_is_in_range_from(sim.radio.air(), heard);
    let told = mote.node.told() - entries;
    let aired = sim.radio.aired() - air;
    sim.records = counted(sim.records, told, aired)?;
    Ok(number)
}

/// The node that an event is of.
fn node_of(world: &World, event: &SharedEvent) -> u8
    requires { NamesPart world.now event.now }
    ensures { result ≡ named_node world.now event.now }
{
    match event {
        SharedEvent::Planned(line) => world.events.as_slice()[*line as usize].node,
        SharedEvent::Period { node, .. } => *node,
        SharedEvent::Fire { node } => *node,
        SharedEvent::Expire { node } => *node,
        SharedEvent::Pump { node } => *node,
        SharedEvent::Due { node, .. } => *node,
        SharedEvent::Deliver { link, .. } => world.links.as_slice()[*link as usize].to,
    }
}

/// So many records, with those of one event more. `NoMemory` comes if a machine word doesn't count them.
fn counted(records: usize, told: usize, aired: usize) -> Result<usize, NoMemory>
    ensures { IfOk result (λ n. n ≡ records + told + aired) }
{
    let Some(before) = records.checked_add(told) else {
        return Err(NoMemory);
    };
    match before.checked_add(aired) {
        Some(count) => Ok(count),
        None => Err(NoMemory),
    }
}
