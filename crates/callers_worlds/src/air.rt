//! What events record, cancel and schedule on the radio.

ghost use Rattle.std.specs.Prelude.{◌≡◌, ◌<◌, ◌≤◌, ℕ, List, [], ◌∷◌, ◌++◌, OnOk};
ghost use Rattle.mate_num.specs.declared.bounds.TheConstants.{HOUR, NODES_MAX};
ghost use Rattle.vm_shape.specs.declared.function.FunKind.TheVariants as kind;
ghost use Rattle.event_queue.specs.Agenda.{due_at};
ghost use Rattle.radio_sim.specs.declared.shared_event.SharedEvent.TheVariants as event;
ghost use Rattle.mate_journal.specs.Log.{Log};
ghost use Rattle.world_rules.specs.World.{World, called_kind};
ghost use Rattle.world_air.specs.Air.{IsAirOf, air_room};

use mate_journal::{Entry, Stamped};
use mate_num::{FunId, NoMemory, Payload, Stamp};
use radio_sim::Radio;
use vm_shape::Description;
use world_air::{Ends, cancel, schedule_interval, send_messages};

/// What a sensor is called with is no message.
pub fn a_sensor_sends_nothing(
    radio: &mut Radio,
    desc: &Description,
    node: u8,
    fun: FunId,
    at: Stamp,
) -> Result<(), NoMemory>
    requires ahead { radio.old.agenda.now ≤ at.time }
    requires hour { at.time ≤ HOUR }
    requires few { air_room radio.old node 1 < 4000000000 }
    ensures { OnOk result ((w : World) (senders : List ℕ) (log : Log) → w.description ≡ desc.now → IsAirOf w senders radio.old
        → called_kind w fun ≡ kind.Sense → radio.new.air ≡ radio.old.air) }
{
    let asked = Stamped {
        stamp: at,
        entry: Entry::Ask {
            inv: 1,
            fun,
            args: Payload::new(),
        },
    };
    send_messages(radio, desc, node, &[asked], at)?;
    Ok(())
}

/// At the point of an interval stands the point, and not the end.
pub fn the_point_comes_at_its_time(
    radio: &mut Radio,
    node: u8,
    point: u32,
    end: u32,
) -> Result<(), NoMemory>
    requires ahead { radio.old.agenda.now ≤ point }
    requires later { point < end }
    requires in_time { point ≤ radio.old.agenda.until }
    ensures { OnOk result (due_at point radio.new.agenda.items ≡ due_at point radio.old.agenda.items ++ event.Fire node ∷ []) }
{
    schedule_interval(radio, node, point, end)?;
    Ok(())
}

/// A pump that is due ends where it shall, also where no answers do.
pub fn a_pump_ends_without_the_answers(radio: &mut Radio, node: u8)
    requires { node < NODES_MAX }
    ensures { (t : ℕ) → due_at t radio.old.agenda.items ≡ event.Pump node ∷ [] → due_at t radio.new.agenda.items ≡ [] }
{
    let ends = Ends {
        interval: false,
        pump: true,
        answers: false,
    };
    cancel(radio, node, ends);
}
