//! What an event does to its node.

ghost use Rattle.std.specs.Prelude.{◌≡◌, ◌<◌, ◌≤◌, ◌++◌, ℕ, [], ◌∷◌, length, slice_get, Some, IfOk, OnOk};
ghost use Rattle.std.specs.Option.{option_to_list};
ghost use Rattle.mate_num.specs.declared.bounds.TheConstants.{HOUR};
ghost use Rattle.mate_journal.specs.Machine.{HeldProgram};
ghost use Rattle.mate_journal.specs.declared.air.Air.TheVariants.{Got};
ghost use Rattle.packet_codec.specs.declared.packet.Packet.{Packet};
ghost use Rattle.capsule_exchange.specs.Happenings.{Installs};
ghost use Rattle.capsule_exchange.specs.Knowledge.{knowledge};
ghost use Rattle.node_programs.specs.Right.{AreRightPrograms};
ghost use Rattle.script_steps.specs.World.{IsRightWorld};
ghost use Rattle.script_steps.specs.declared.world.Link.{Link as Joined};
ghost use Rattle.world_rules.specs.Cause.{Planned, Deliver};
ghost use Rattle.world_rules.specs.Effect.{Node as NodeState};
ghost use Rattle.world_rules.specs.State.{sent_bytes};
ghost use Rattle.world_rules.specs.World.{Inject, handlers};
ghost use Rattle.world_state.specs.Motes.{IsTellable};
ghost use Rattle.world_run_laws.specs.Coming.{code_world, MayComeTo};
ghost use Rattle.world_state.specs.Standing.{IsMoteOf};
ghost use Rattle.world_event.specs.Handling.{IsOpenExchange, IsPaced};

use mate_journal::StoredPrograms;
use mate_num::{NoMemory, Stamp};
use radio_sim::{SharedEvent, SharedPacket};
use script_steps::World;
use vm_shape::Description;
use world_event::handle;
use world_state::{Effect, Mote};

/// The program of the script's first line is installed as its own version.
pub fn an_injection_has_its_own_version(
    mote: &mut Mote,
    desc: &Description,
    world: &World,
    programs: &StoredPrograms,
    at: Stamp,
) -> Result<Effect, NoMemory>
    requires machine { mote.old.node.description ≡ desc.now }
    requires world { IsRightWorld desc.now world.now }
    requires programs { AreRightPrograms desc.now programs.now }
    requires files { length programs.now ≡ length world.now.files }
    requires event { 0 < length world.now.events }
    requires is_open { IsOpenExchange mote.old.exchange }
    requires handlers { length mote.old.exchange.handlers ≡ length desc.now.handlers.items }
    requires tellable { IsTellable mote.old.node at }
    requires few { length mote.old.node.log.entries < 1000000000 }
    requires paced { IsPaced mote.old.node }
    requires hour { at.time ≤ HOUR }
    requires within { mote.old.timer.running.begin ≤ at.time }
    ensures { OnOk result ((k time node : ℕ) (n : NodeState) (p : HeldProgram)
        → IsMoteOf (code_world desc.now world.now programs.now) k n mote.old
        → MayComeTo (code_world desc.now world.now programs.now) n at.time (Planned 0)
        → slice_get (code_world desc.now world.now programs.now).plan 0 ≡ Some (record { time = time; node = node; what = Inject p })
        → mote.new.exchange ≡ knowledge (handlers (code_world desc.now world.now programs.now))
        (Installs p.handler.0 p.version p.image.items ∷ n.exchange)) }
{
    let mut effect = Effect::none();
    let event = SharedEvent::Planned(0);
    handle(mote, desc, world, programs, &event, at, &mut effect)?;
    Ok(effect)
}

/// What comes over the first link comes from the node at its beginning.
pub fn a_packet_is_got_from_its_sender(
    mote: &mut Mote,
    desc: &Description,
    world: &World,
    programs: &StoredPrograms,
    number: u32,
    bytes: SharedPacket,
    at: Stamp,
) -> Result<Effect, NoMemory>
    requires machine { mote.old.node.description ≡ desc.now }
    requires world { IsRightWorld desc.now world.now }
    requires programs { AreRightPrograms desc.now programs.now }
    requires files { length programs.now ≡ length world.now.files }
    requires event { 0 < length world.now.links }
    requires is_open { IsOpenExchange mote.old.exchange }
    requires handlers { length mote.old.exchange.handlers ≡ length desc.now.handlers.items }
    requires tellable { IsTellable mote.old.node at }
    requires few { length mote.old.node.log.entries < 1000000000 }
    requires paced { IsPaced mote.old.node }
    requires hour { at.time ≤ HOUR }
    requires within { mote.old.timer.running.begin ≤ at.time }
    ensures { IfOk result (λ effect. (k : ℕ) (n : NodeState) (packet : Packet) (link : Joined)
        → IsMoteOf (code_world desc.now world.now programs.now) k n mote.old
        → MayComeTo (code_world desc.now world.now programs.now) n at.time (Deliver 0 number packet)
        → sent_bytes (code_world desc.now world.now programs.now) packet ≡ bytes → slice_get world.now.links 0 ≡ Some link
        → option_to_list effect.first ≡ Got number link.from ∷ []) }
{
    let event = SharedEvent::Deliver {
        link: 0,
        number,
        bytes,
    };
    let mut effect = Effect::none();
    handle(mote, desc, world, programs, &event, at, &mut effect)?;
    Ok(effect)
}
