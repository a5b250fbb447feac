//! What an event records, cancels and schedules, once its node had its turns.

ghost use Rattle.std.specs.Prelude.{◌≡◌, ◌≤◌, ◌+◌, true, List, length, All, OnOk};
ghost use Rattle.mate_num.specs.declared.bounds.TheConstants.{HOUR};
ghost use Rattle.node_open.specs.declared.open_node.TheConstants.{SETTLING_ENTRIES};
ghost use Rattle.packet_codec.specs.Packet.{IsRightPacket};
ghost use Rattle.mate_journal.specs.declared.program.Program.{Program as ProgramOfFile};
ghost use Rattle.script_steps.specs.World.{IsRightWorld};
ghost use Rattle.radio_sim.specs.Radio.{wires_of};
ghost use Rattle.world_rules.specs.Effect.{event_node};
ghost use Rattle.world_rules.specs.State.{Moment, WorldState};
ghost use Rattle.world_air.specs.Air.{radio_event};
ghost use Rattle.world_run_laws.specs.Coming.{code_world};
ghost use Rattle.world_state.specs.Standing.{IsTakenFrom};
ghost use Rattle.world_event.specs.Finishing.{HasSettled, IsFinished};

use crate::answers::schedule_answers;
use crate::pieces::{note_all, schedule_pump, schedule_timed, send_packets};
use mate_num::{NoMemory, Stamp};
use radio_sim::{Radio, SharedEvent};
use script_steps::World;
use vm_shape::Description;
use world_air::{Ends, cancel};
use world_state::{Effect, Mote};

/// The event is recorded on the air, cancels what ends with it, and schedules what comes of it: the next period, the
/// interval that begins, deliveries, the pump, and answers, in this order.
pub fn finish(
    radio: &mut Radio,
    mote: &mut Mote,
    desc: &Description,
    world: &World,
    number: u8,
    event: &SharedEvent,
    effect: &mut Effect,
    from: usize,
    at: Stamp,
) -> Result<(), NoMemory>
    requires world { IsRightWorld desc.now world.now }
    requires machine { mote.old.node.description ≡ desc.now }
    requires kept { mote.old.node.gone.entries ≤ from }
    requires from { from ≤ length mote.old.node.log.entries }
    requires ahead { radio.old.agenda.now ≤ at.time }
    requires hour { at.time ≤ HOUR }
    requires few { length radio.old.air ≤ 1000000 }
    requires short { length mote.old.node.log.entries ≤ from + SETTLING_ENTRIES }
    requires wires { length (wires_of radio.old number) ≤ 4096 }
    requires right { All (IsRightPacket (length desc.now.handlers.items)) effect.old.sends.items }
    requires interval { effect.old.begins ≡ true → at.time ≤ mote.old.timer.running.begin }
    requires counts { length mote.old.calls.counts.items ≡ length desc.now.functions.items }
    ensures { OnOk result ((programs : List ProgramOfFile) (s : WorldState) (m : Moment) → m.time ≡ at.time
        → radio_event (code_world desc.now world.now programs) m.cause ≡ event.now
        → event_node (code_world desc.now world.now programs) m.cause ≡ number
        → IsTakenFrom (code_world desc.now world.now programs) s m radio.old
        → HasSettled (code_world desc.now world.now programs) s m from mote.old effect.old
        → IsFinished (code_world desc.now world.now programs) s m at radio.old radio.new mote.old mote.new) }
{
    let begins = effect.begins;
    note_all(radio, number, at, &effect.first, begins, &mote.timer)?;
    let ends = Ends {
        interval: begins,
        pump: effect.resets,
        answers: effect.cuts,
    };
    cancel(radio, number, ends);
    schedule_timed(radio, desc, number, event, begins, &mote.timer, at.time)?;
    let entries = mote.node.told_since(from);
    send_packets(radio, desc, number, effect.sends.as_slice(), entries, at)?;
    let marked = mote.exchange.marked();
    mote.pumps = schedule_pump(radio, desc, number, mote.pumps, marked, at.time)?;
    schedule_answers(
        radio,
        &mut mote.calls,
        &mote.node,
        desc,
        world.series.as_slice(),
        number,
        at.time,
        entries,
    )?;
    Ok(())
}
