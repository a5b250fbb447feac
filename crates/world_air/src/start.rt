//! What is due and recorded before a world's first event.

ghost use Rattle.std.specs.Prelude.{◌≡◌, ◌<◌, ◌≤◌, ◌∷◌, [], length, OnOk};
ghost use Rattle.mate_journal.specs.declared.air.Air.TheVariants as air;
ghost use Rattle.world_air.specs.Air.{aired_at};
ghost use Rattle.radio_sim.specs.declared.shared_event.SharedEvent.TheVariants as radio_event;
ghost use Rattle.world_air.specs.Changes.{AddsToAir};
ghost use Rattle.world_air.specs.Starting.{beginning, planned_items, first_items, first_periods, period_item};

use crate::changes::{note_interval, schedule, schedule_interval};
use mate_num::{HandlerId, NoMemory, Stamp};
use radio_sim::{Radio, SharedEvent};
use script_steps::World;
use trickle_timer::Trickle;
use vm_shape::{Description, HandlerKind};

/// The stamp of what is recorded before the first event.
const BEGINNING: Stamp = Stamp { event: 0, time: 0 };

/// The lines of the script are due, in their order.
pub fn schedule_lines(radio: &mut Radio, world: &World) -> Result<(), NoMemory>
    requires now { radio.old.agenda.now ≡ 0 }
    requires few { length world.now.events < 4000000000 }
    ensures { OnOk result (AddsToAir radio.old radio.new [] (planned_items 0 world.now.events)) }
{
    for (line, planned) in world.events.as_slice().iter().enumerate() {
        plan_line(radio, planned.time, line as u32)?;
    }
    Ok(())
}

/// A line of the script is due.
fn plan_line(radio: &mut Radio, time: u32, line: u32) -> Result<(), NoMemory>
    requires { radio.old.agenda.now ≤ time }
    ensures { OnOk result (AddsToAir radio.old radio.new [] (record { time = time; item = radio_event.Planned line } ∷ [])) }
{
    radio.plan(time, line)?;
    Ok(())
}

/// The first interval of a node begins, and its first periods are due.
pub fn begin_node(
    radio: &mut Radio,
    desc: &Description,
    node: u8,
    timer: &Trickle,
) -> Result<(), NoMemory>
    requires { radio.old.agenda.now ≡ 0 }
    ensures { OnOk result (AddsToAir radio.old radio.new (aired_at beginning node (air.Interval timer.now.running.length)
        ∷ []) (first_items desc.now node timer.now)) }
{
    note_interval(radio, node, BEGINNING, Some(timer.length()))?;
    schedule_interval(radio, node, timer.point(), timer.begin() + timer.length())?;
    schedule_periods(radio, desc, node)?;
    Ok(())
}

/// The first period of each timer handler of a node is due.
fn schedule_periods(radio: &mut Radio, desc: &Description, node: u8) -> Result<(), NoMemory>
    requires { radio.old.agenda.now ≡ 0 }
    ensures { OnOk result (AddsToAir radio.old radio.new [] (first_periods node 0 desc.now.handlers.items)) }
{
    for (h, handler) in desc.handlers.as_slice().iter().enumerate() {
        schedule_period(radio, node, HandlerId(h as u8), handler.kind)?;
    }
    Ok(())
}

/// The first period of a handler is due, if it is a timer's.
fn schedule_period(
    radio: &mut Radio,
    node: u8,
    handler: HandlerId,
    kind: HandlerKind,
) -> Result<(), NoMemory>
    requires { radio.old.agenda.now ≡ 0 }
    ensures { OnOk result (AddsToAir radio.old radio.new [] (period_item node handler kind)) }
{
    match kind {
        HandlerKind::Plain => Ok(()),
        HandlerKind::Timer { period } => {
            schedule(radio, period, SharedEvent::Period { node, handler })
        }
        HandlerKind::Receive => Ok(()),
        HandlerKind::Once => Ok(()),
    }
}
