//! The end of an event.

ghost use Rattle.std.specs.Prelude.{◌≡◌, ◌≢◌, ◌≤◌, ◌+◌, ◌++◌, ◌∷◌, [], ℕ, suc, List, length, slice_get, true, Some, OnOk};
ghost use Rattle.mate_num.specs.declared.id.HandlerId.{HandlerId as Handler};
ghost use Rattle.mate_journal.specs.declared.air.Air.TheVariants.{Sent};
ghost use Rattle.mate_journal.specs.declared.air.Aired.{Aired};
ghost use Rattle.mate_journal.specs.declared.program.Program.{Program as ProgramOfFile};
ghost use Rattle.packet_codec.specs.declared.packet.Packet.{Packet};
ghost use Rattle.event_queue.specs.Agenda.{due_at};
ghost use Rattle.radio_sim.specs.declared.shared_event.SharedEvent.TheVariants as radio_kind;
ghost use Rattle.world_rules.specs.Cause.{Period, Expire};
ghost use Rattle.world_rules.specs.State.{Moment, WorldState, sent_bytes, schedules, of_time};
ghost use Rattle.world_rules.specs.World.{period_of};
ghost use Rattle.world_air.specs.Air.{aired_at};
ghost use Rattle.world_run_laws.specs.Coming.{code_world};
ghost use Rattle.callers_worlds.specs.Ends.{MayFinish, IsMoment, IsMomentBefore, IsPumpFirst, SendsAlone};

use mate_num::{NoMemory, Stamp};
use radio_sim::{Radio, SharedEvent};
use script_steps::World;
use vm_shape::Description;
use world_event::finish::finish;
use world_state::{Effect, Mote};

/// After an event the end of the interval before comes no more where one begins; where the next period and a delivery fall on one
/// time the period comes first, and of a pump and an answer the pump; and a packet that the exchange asks for is sent before the
/// messages of the node's programs.
pub fn an_event_ends_in_its_order(
    radio: &mut Radio,
    mote: &mut Mote,
    desc: &Description,
    world: &World,
    number: u8,
    event: &SharedEvent,
    effect: &mut Effect,
    from: usize,
    at: Stamp,
) -> Result<(), NoMemory>
    requires { MayFinish desc.now world.now radio.old mote.old number effect.old from at.time }
    ensures interval { OnOk result ((programs : List ProgramOfFile) (s : WorldState) (m : Moment) (t : ℕ)
        → IsMoment (code_world desc.now world.now programs) s m radio.old mote.old number event.now effect.old from at.time
        → t ≤ world.now.until → t ≢ m.time → effect.old.begins ≡ true → s.due t ≡ Expire number ∷ []
        → of_time t (schedules (code_world desc.now world.now programs) s m) ≡ []
        → due_at t radio.new.agenda.items ≡ []) }
    ensures period { OnOk result ((programs : List ProgramOfFile) (s : WorldState) (m : Moment) (h : Handler) (period : ℕ)
        → IsMomentBefore (m.time + period) (code_world desc.now world.now programs) s m radio.old mote.old number event.now effect.old
        from at.time
        → m.cause ≡ Period number h → period_of (code_world desc.now world.now programs) h.0 ≡ Some period
        → slice_get (due_at (m.time + period) radio.new.agenda.items) 0 ≡ Some (radio_kind.Period number h)) }
    ensures pump { OnOk result ((programs : List ProgramOfFile) (s : WorldState) (m : Moment)
        → IsMomentBefore (m.time + desc.now.radio.gap) (code_world desc.now world.now programs) s m radio.old mote.old number event.now
        effect.old from at.time
        → IsPumpFirst (code_world desc.now world.now programs) s m
        → slice_get (due_at (m.time + desc.now.radio.gap) radio.new.agenda.items) 0 ≡ Some (radio_kind.Pump number)) }
    ensures request { OnOk result ((programs : List ProgramOfFile) (s : WorldState) (m : Moment) (p : Packet)
        → IsMoment (code_world desc.now world.now programs) s m radio.old mote.old number event.now effect.old from at.time
        → SendsAlone (code_world desc.now world.now programs) s m p
        → (rest : List Aired) × (radio.new.air ≡ radio.old.air
        ++ aired_at at number (Sent (suc (length s.senders)) (sent_bytes (code_world desc.now world.now programs) p)) ∷ rest)) }
{
    finish(radio, mote, desc, world, number, event, effect, from, at)?;
    Ok(())
}
