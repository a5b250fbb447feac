//! An event on a node: what comes to it, and what it does beyond the node's journal, before the node has its turns.

ghost use Rattle.std.specs.Prelude.{◌≡◌, ◌<◌, ◌≤◌, ℕ, [], ◌∷◌, length, slice_get, All, OnOk};
ghost use Rattle.mate_num.specs.declared.bounds.TheConstants.{HOUR};
ghost use Rattle.mate_journal.specs.declared.air.Air.TheVariants.{Got};
ghost use Rattle.node_state.specs.Meaning.{machine_in};
ghost use Rattle.node_open.specs.View.{heard_of};
ghost use Rattle.node_open.specs.Calls.{Pacing};
ghost use Rattle.node_programs.specs.Right.{AreRightPrograms};
ghost use Rattle.node_programs.specs.ScriptSteps.{program_at};
ghost use Rattle.packet_codec.specs.Bytes.{packet_bytes};
ghost use Rattle.packet_codec.specs.Packet.{IsRightPacket, HasPacketRanges};
ghost use Rattle.packet_codec.specs.declared.packet.Packet.{Packet as RadioPacket};
ghost use Rattle.script_steps.specs.World.{IsRightWorld, IsRightWhat};
ghost use Rattle.world_rules.specs.Cause.{Cause};
ghost use Rattle.world_rules.specs.Effect.{Node as NodeState, of_line, of_packet};
ghost use Rattle.world_rules.specs.Run.{Occasions};
ghost use Rattle.world_rules.specs.World.{want_of, is_receiver as receives};
ghost use Rattle.world_air.specs.Air.{radio_event};
ghost use Rattle.world_state.specs.Motes.{IsTellable, TellsAlone, plain_effect};
ghost use Rattle.world_run_laws.specs.Coming.{code_world, MayComeTo};
ghost use Rattle.world_state.specs.Standing.{IsMoteOf};
ghost use Rattle.world_event.specs.Handling.{IsFitEvent, IsOpenExchange, IsPaced, Handled, DoesBy, IsFragmentOf, receivers_below};

use mate_journal::StoredPrograms;
use mate_num::{HandlerId, Image, NoMemory, Payload, Stamp};
use packet_codec::{Packet, decode};
use radio_sim::{SharedEvent, SharedPacket};
use script_steps::{Link, What, World};
use vm_shape::{Description, HandlerKind};
use world_state::{Effect, Mote};

/// What the event does to its node, before the node has its turns. After `NoMemory` nothing is said of the node or the
/// effect.
pub fn handle(
    mote: &mut Mote,
    desc: &Description,
    world: &World,
    programs: &StoredPrograms,
    event: &SharedEvent,
    at: Stamp,
    effect: &mut Effect,
) -> Result<(), NoMemory>
    requires machine { mote.old.node.description ≡ desc.now }
    requires world { IsRightWorld desc.now world.now }
    requires programs { AreRightPrograms desc.now programs.now }
    requires files { length programs.now ≡ length world.now.files }
    requires event { IsFitEvent desc.now world.now mote.old.timer at.time event.now }
    requires is_open { IsOpenExchange mote.old.exchange }
    requires handlers { length mote.old.exchange.handlers ≡ length desc.now.handlers.items }
    requires tellable { IsTellable mote.old.node at }
    requires few { length mote.old.node.log.entries < 1000000000 }
    requires paced { IsPaced mote.old.node }
    requires hour { at.time ≤ HOUR }
    requires within { mote.old.timer.running.begin ≤ at.time }
    requires plain { effect.old ≡ plain_effect }
    ensures handled { OnOk result ((k : ℕ) (n : NodeState) (c : Cause) → IsMoteOf (code_world desc.now world.now programs.now) k n mote.old
        → radio_event (code_world desc.now world.now programs.now) c ≡ event.now
        → MayComeTo (code_world desc.now world.now programs.now) n at.time c
        → Handled (code_world desc.now world.now programs.now) k n c at mote.old mote.new effect.new) }
    ensures right { OnOk result (All (IsRightPacket (length desc.now.handlers.items)) effect.new.sends.items) }
{
    match event {
        SharedEvent::Planned(line) => {
            let planned = &world.events.as_slice()[*line as usize];
            follow(mote, &planned.what, programs, at, effect)
        }
        SharedEvent::Period { handler, .. } => mote.post(*handler, &Payload::new(), at),
        SharedEvent::Fire { .. } => {
            mote.fire(world.suppress, effect);
            Ok(())
        }
        SharedEvent::Expire { .. } => {
            mote.expire(at.time, effect);
            Ok(())
        }
        SharedEvent::Pump { .. } => {
            mote.pump(effect);
            Ok(())
        }
        SharedEvent::Due { ctx, value, .. } => mote.answer(*ctx, *value, at),
        SharedEvent::Deliver {
            link,
            number,
            bytes,
        } => {
            let link = &world.links.as_slice()[*link as usize];
            receive(mote, desc, link, *number, bytes, at, effect)
        }
    }
}

/// A line of the script comes to the node.
#[inline(never)]
fn follow(
    mote: &mut Mote,
    what: &What,
    programs: &StoredPrograms,
    at: Stamp,
    effect: &mut Effect,
) -> Result<(), NoMemory>
    requires what { IsRightWhat mote.old.node.description (length programs.now) what.now }
    requires programs { AreRightPrograms mote.old.node.description programs.now }
    requires handlers { length mote.old.exchange.handlers ≡ length mote.old.node.description.handlers.items }
    requires tellable { IsTellable mote.old.node at }
    requires hour { at.time ≤ HOUR }
    requires within { mote.old.timer.running.begin ≤ at.time }
    requires plain { effect.old ≡ plain_effect }
    ensures does { OnOk result (DoesBy at (λ _ _. of_line (want_of (program_at programs.now) what.now)) mote.old mote.new effect.new) }
    ensures silent { OnOk result (effect.new.sends.items ≡ []) }
{
    match what {
        What::Inject { program, .. } => {
            let program = &programs.as_slice()[*program as usize];
            let image = program.image.image();
            mote.install(program.handler, program.version, &image, at, effect)
        }
        What::Post { handler, payload } => mote.post(*handler, payload, at),
        What::Show => mote.show(at),
        What::Reset => mote.reset(at, effect),
        What::Noise { bytes } => {
            effect.first.noise(bytes);
            Ok(())
        }
    }
}

/// What comes over the link with this number is heard, if it is a packet of the machine.
fn receive(
    mote: &mut Mote,
    desc: &Description,
    link: &Link,
    number: u32,
    bytes: &SharedPacket,
    at: Stamp,
    effect: &mut Effect,
) -> Result<(), NoMemory>
    requires machine { mote.old.node.description ≡ desc.now }
    requires is_open { IsOpenExchange mote.old.exchange }
    requires handlers { length mote.old.exchange.handlers ≡ length desc.now.handlers.items }
    requires tellable { IsTellable mote.old.node at }
    requires few { length mote.old.node.log.entries < 1000000000 }
    requires paced { IsPaced mote.old.node }
    requires hour { at.time ≤ HOUR }
    requires within { mote.old.timer.running.begin ≤ at.time }
    requires plain { effect.old ≡ plain_effect }
    ensures does { OnOk result ((packet : RadioPacket) → IsRightPacket (length desc.now.handlers.items) packet → HasPacketRanges packet
        → bytes.now.items ≡ packet_bytes desc.now.vm_id packet
        → DoesBy at (λ w n. record (of_packet w n.exchange packet) { first = Got number link.now.from ∷ [] }) mote.old mote.new
        effect.new) }
    ensures right { OnOk result (All (IsRightPacket (length desc.now.handlers.items)) effect.new.sends.items) }
{
    if let Some(packet) = bytes.packet(desc) {
        return get(mote, desc, link, number, packet, at, effect);
    }
    // (what was read for another machine, or is no packet)
    match decode(desc, bytes.bytes().as_slice()) {
        Ok(packet) => get(mote, desc, link, number, &packet, at, effect),
        Err(_) => Ok(()),
    }
}

/// The packet of this number comes to the node over the link.
#[inline(always)]
fn get(
    mote: &mut Mote,
    desc: &Description,
    link: &Link,
    number: u32,
    packet: &Packet,
    at: Stamp,
    effect: &mut Effect,
) -> Result<(), NoMemory>
    requires machine { mote.old.node.description ≡ desc.now }
    requires packet { IsRightPacket (length desc.now.handlers.items) packet.now }
    requires is_open { IsOpenExchange mote.old.exchange }
    requires handlers { length mote.old.exchange.handlers ≡ length desc.now.handlers.items }
    requires tellable { IsTellable mote.old.node at }
    requires few { length mote.old.node.log.entries < 1000000000 }
    requires paced { IsPaced mote.old.node }
    requires hour { at.time ≤ HOUR }
    requires within { mote.old.timer.running.begin ≤ at.time }
    requires plain { effect.old ≡ plain_effect }
    ensures does { OnOk result (DoesBy at (λ w n. record (of_packet w n.exchange packet.now) { first = Got number link.now.from ∷ [] })
        mote.old mote.new effect.new) }
    ensures right { OnOk result (All (IsRightPacket (length desc.now.handlers.items)) effect.new.sends.items) }
{
    hear(mote, desc, packet, at, effect)?;
    effect.first.got(number, link.from);
    Ok(())
}

/// The node hears a packet.
fn hear(
    mote: &mut Mote,
    desc: &Description,
    packet: &Packet,
    at: Stamp,
    effect: &mut Effect,
) -> Result<(), NoMemory>
    requires machine { mote.old.node.description ≡ desc.now }
    requires packet { IsRightPacket (length desc.now.handlers.items) packet.now }
    requires is_open { IsOpenExchange mote.old.exchange }
    requires handlers { length mote.old.exchange.handlers ≡ length desc.now.handlers.items }
    requires tellable { IsTellable mote.old.node at }
    requires few { length mote.old.node.log.entries < 1000000000 }
    requires paced { IsPaced mote.old.node }
    requires hour { at.time ≤ HOUR }
    requires within { mote.old.timer.running.begin ≤ at.time }
    requires plain { effect.old ≡ plain_effect }
    ensures does { OnOk result (DoesBy at (λ w n. of_packet w n.exchange packet.now) mote.old mote.new effect.new) }
    ensures right { OnOk result (All (IsRightPacket (length desc.now.handlers.items)) effect.new.sends.items) }
{
    match packet {
        Packet::Vector { .. } => {
            mote.hear_vector(packet, at, effect);
            Ok(())
        }
        Packet::Status { .. } => {
            mote.exchange.hear(packet, &mut effect.sends);
            Ok(())
        }
        Packet::Fragment { version, .. } => hear_fragment(mote, packet, *version, at, effect),
        Packet::App { payload } => {
            mote.exchange.hear(packet, &mut effect.sends);
            post_received(mote, desc, payload, at)
        }
    }
}

/// The node hears a fragment of this version, and installs the image that is whole with it. It isn't inlined, so that what comes in most
/// events takes no room for an image.
#[inline(never)]
fn hear_fragment(
    mote: &mut Mote,
    packet: &Packet,
    version: u32,
    at: Stamp,
    effect: &mut Effect,
) -> Result<(), NoMemory>
    requires packet { IsRightPacket (length mote.old.exchange.handlers) packet.now }
    requires fragment { IsFragmentOf version packet.now }
    requires is_open { IsOpenExchange mote.old.exchange }
    requires tellable { IsTellable mote.old.node at }
    requires hour { at.time ≤ HOUR }
    requires within { mote.old.timer.running.begin ≤ at.time }
    requires plain { effect.old ≡ plain_effect }
    ensures does { OnOk result (DoesBy at (λ w n. of_packet w n.exchange packet.now) mote.old mote.new effect.new) }
    ensures silent { OnOk result (effect.new.sends.items ≡ []) }
{
    let heard = mote.exchange.hear(packet, &mut effect.sends);
    let Some(handler) = heard.complete else {
        return Ok(());
    };
    let mut image = Image::new();
    if mote.exchange.complete_into(handler, &mut image) {
        return mote.install(handler, version, &image, at, effect);
    }
    Ok(())
}

/// A message is posted to the handlers that receive messages, in their order.
#[inline(never)]
fn post_received(
    mote: &mut Mote,
    desc: &Description,
    payload: &Payload,
    at: Stamp,
) -> Result<(), NoMemory>
    requires machine { mote.old.node.description ≡ desc.now }
    requires tellable { IsTellable mote.old.node at }
    requires few { length mote.old.node.log.entries < 1000000000 }
    requires paced { IsPaced mote.old.node }
    ensures { OnOk result (TellsAlone at
        (Pacing (Occasions (machine_in desc.now) payload.now (receivers_below desc.now (length desc.now.handlers.items))
        (heard_of mote.old.node))) mote.old mote.new) }
{
    for h in 0..desc.handlers.len() as u8 {
        if is_receiver(desc, HandlerId(h)) {
            // How many entries a post makes is known from what the whole journal keeps.
            let _ = mote.node.kept();
            mote.post(HandlerId(h), payload, at)?;
        }
    }
    Ok(())
}

/// Whether messages go to the handler.
fn is_receiver(desc: &Description, handler: HandlerId) -> bool
    ensures { result ≡ receives (slice_get desc.now.handlers.items handler.0) }
{
    match desc.handlers.as_slice().get(usize::from(handler.0)) {
        Some(handler) => matches!(handler.kind, HandlerKind::Receive),
        None => false,
    }
}
