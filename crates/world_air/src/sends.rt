//! What a node sends in an event.

ghost use Rattle.std.specs.Prelude.{◌≡◌, ◌<◌, ◌≤◌, ℕ, List, [], ◌∷◌, length, map, All, OnOk, slice_get, if◌then◌else◌};
ghost use Rattle.std.specs.Option.{option_map_or, option_to_list};
ghost use Rattle.mate_num.specs.declared.bounds.TheConstants.{HOUR};
ghost use Rattle.vm_shape.specs.declared.function.Function.{Function as CalledFunction};
ghost use Rattle.vm_shape.specs.declared.function.FunKind.TheVariants as kinds;
ghost use Rattle.packet_codec.specs.declared.packet.Packet.{Packet as SentPacket};
ghost use Rattle.packet_codec.specs.declared.packet.Packet.TheVariants.{App};
ghost use Rattle.packet_codec.specs.Packet.{IsRightPacket};
ghost use Rattle.mate_journal.specs.Log.{Log};
ghost use Rattle.mate_journal.specs.Journal.{journal_entry};
ghost use Rattle.mate_journal.specs.declared.entry.Stamped.{Stamped as StampedEntry};
ghost use Rattle.world_rules.specs.World.{World, called_kind};
ghost use Rattle.world_rules.specs.State.{is_send_kind, message_in, messages};
ghost use Rattle.world_air.specs.Air.{IsAirOf, SendsAll, IsSteady, air_room};

use mate_journal::{Entry, Stamped};
use mate_num::{FunId, NoMemory, Payload, Stamp, copy_of};
use packet_codec::{Packet, encode};
use radio_sim::Radio;
use vm_shape::{Description, FunKind};

/// The node sends a packet in the event `at`: it is recorded with what links lose of it, and is delivered, as the rules of a
/// world say. After `NoMemory` nothing is said.
pub fn send(
    radio: &mut Radio,
    desc: &Description,
    node: u8,
    packet: &Packet,
    at: Stamp,
) -> Result<(), NoMemory>
    requires ahead { radio.old.agenda.now ≤ at.time }
    requires hour { at.time ≤ HOUR }
    requires few { length radio.old.air < 4000000000 }
    requires right { IsRightPacket (length desc.now.handlers.items) packet.now }
    ensures sends { OnOk result ((w : World) (senders : List ℕ) → w.description ≡ desc.now → IsAirOf w senders radio.old
        → SendsAll w node at senders (packet.now ∷ []) radio.old radio.new) }
    ensures steady { OnOk result (IsSteady node 1 radio.old radio.new) }
{
    let bytes = encode(desc, packet);
    radio.transmit_own(desc, node, bytes, at)?;
    Ok(())
}

/// The node sends the packets, in their order.
pub fn send_all(
    radio: &mut Radio,
    desc: &Description,
    node: u8,
    packets: &[Packet],
    at: Stamp,
) -> Result<(), NoMemory>
    requires ahead { radio.old.agenda.now ≤ at.time }
    requires hour { at.time ≤ HOUR }
    requires few { air_room radio.old node (length packets.now) < 4000000000 }
    requires right { All (IsRightPacket (length desc.now.handlers.items)) packets.now }
    ensures sends { OnOk result ((w : World) (senders : List ℕ) → w.description ≡ desc.now → IsAirOf w senders radio.old
        → SendsAll w node at senders packets.now radio.old radio.new) }
    ensures steady { OnOk result (IsSteady node (length packets.now) radio.old radio.new) }
{
    for packet in packets {
        send(radio, desc, node, packet, at)?;
    }
    Ok(())
}

/// The node sends the messages that the entries call for, in their order.
pub fn send_messages(
    radio: &mut Radio,
    desc: &Description,
    node: u8,
    entries: &[Stamped],
    at: Stamp,
) -> Result<(), NoMemory>
    requires ahead { radio.old.agenda.now ≤ at.time }
    requires hour { at.time ≤ HOUR }
    requires few { air_room radio.old node (length entries.now) < 4000000000 }
    ensures sends { OnOk result ((w : World) (senders : List ℕ) (l : Log) → w.description ≡ desc.now → IsAirOf w senders radio.old →
        SendsAll w node at senders (messages w (map (λ (e : StampedEntry). journal_entry l e.entry) entries.now)) radio.old radio.new) }
    ensures steady { OnOk result (IsSteady node (length entries.now) radio.old radio.new) }
{
    for stamped in entries {
        send_message(radio, desc, node, &stamped.entry, at)?;
    }
    Ok(())
}

/// The node sends the message of the entry, if it has one.
fn send_message(
    radio: &mut Radio,
    desc: &Description,
    node: u8,
    entry: &Entry,
    at: Stamp,
) -> Result<(), NoMemory>
    requires ahead { radio.old.agenda.now ≤ at.time }
    requires hour { at.time ≤ HOUR }
    requires few { length radio.old.air < 4000000000 }
    ensures sends { OnOk result ((w : World) (senders : List ℕ) (l : Log) → w.description ≡ desc.now → IsAirOf w senders radio.old →
        SendsAll w node at senders (option_to_list (message_in w (journal_entry l entry.now))) radio.old radio.new) }
    ensures steady { OnOk result (IsSteady node 1 radio.old radio.new) }
{
    let Some(packet) = message_of(desc, entry) else {
        return Ok(());
    };
    send(radio, desc, node, &packet, at)?;
    Ok(())
}

/// The message that the entry sends, if it calls a function that sends.
fn message_of(desc: &Description, entry: &Entry) -> Option<Packet>
    ensures value { (w : World) (l : Log) → w.description ≡ desc.now → result ≡ message_in w (journal_entry l entry.now) }
    ensures right { (n : ℕ) (p : SentPacket) → result ≡ Some p → IsRightPacket n p }
{
    match entry {
        Entry::Ask { fun, args, .. } => message_by(desc, *fun, args),
        _ => None,
    }
}

/// The message of a call of the function with these values.
fn message_by(desc: &Description, fun: FunId, args: &Payload) -> Option<Packet>
    ensures value { (w : World) → w.description ≡ desc.now
        → result ≡ (if is_send_kind (called_kind w fun) then Some (App args.now) else None) }
    ensures right { (n : ℕ) (p : SentPacket) → result ≡ Some p → IsRightPacket n p }
{
    match kind_in(desc, fun) {
        FunKind::Send => Some(Packet::App {
            payload: copy_of(args),
        }),
        FunKind::Sense => None,
        FunKind::Act { .. } => None,
        FunKind::Id => None,
        FunKind::Rand => None,
        FunKind::Clock => None,
    }
}

/// What the function does; that of `Id` if there is none.
fn kind_in(desc: &Description, fun: FunId) -> FunKind
    ensures { result ≡ option_map_or (λ (f : CalledFunction). f.kind) (slice_get desc.now.functions.items fun.0) kinds.Id }
{
    match desc.functions.as_slice().get(usize::from(fun.0)) {
        Some(function) => function.kind,
        None => FunKind::Id,
    }
}
