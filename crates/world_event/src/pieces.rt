//! The pieces of what an event changes on the radio.

ghost use Rattle.std.specs.Prelude.{◌≡◌, ◌<◌, ◌≤◌, ◌+◌, ◌++◌, ◌∷◌, ◌||◌, ◌&&◌, not, ℕ, true, List, [], length, map, All, Some, OnOk, IfOk};
ghost use Rattle.std.specs.Option.{option_to_list};
ghost use Rattle.mate_num.specs.declared.bounds.TheConstants.{HOUR};
ghost use Rattle.packet_codec.specs.Packet.{IsRightPacket};
ghost use Rattle.mate_journal.specs.Log.{Log};
ghost use Rattle.mate_journal.specs.Journal.{journal_entry};
ghost use Rattle.mate_journal.specs.declared.entry.Stamped.{Stamped as StampedEntry};
ghost use Rattle.world_rules.specs.World.{World, period_in as period_in_kind};
ghost use Rattle.world_rules.specs.State.{messages};
ghost use Rattle.world_air.specs.Air.{aired_at, IsAirOf, SendsAll, air_room};
ghost use Rattle.world_air.specs.Changes.{AddsToAir, if_begins};
ghost use Rattle.world_event.specs.Pieces.{length_of, interval_items, handler_period, next_items, period_items, pump_items};

use mate_journal::{Air, Stamped};
use mate_num::{HandlerId, NoMemory, Stamp};
use packet_codec::Packet;
use radio_sim::wire::copy_of;
use radio_sim::{Radio, SharedEvent};
use trickle_timer::Trickle;
use vm_shape::{Description, HandlerKind};
use world_air::{note_first, note_interval, schedule, schedule_interval, send_all, send_messages};
use world_state::{First, FirstTold};

/// Records what comes first in an event, if anything does, and the length of the interval that begins, if one does.
pub(crate) fn note_all(
    radio: &mut Radio,
    node: u8,
    at: Stamp,
    first: &First,
    begins: bool,
    timer: &Trickle,
) -> Result<(), NoMemory>
    ensures { OnOk result (AddsToAir radio.old radio.new (map (aired_at at node) (option_to_list first.now)
        ++ map (aired_at at node) (if_begins (length_of begins timer.now))) []) }
{
    note_told(radio, node, at, first)?;
    note_interval(radio, node, at, length_begun(begins, timer))?;
    Ok(())
}

/// Records what comes first in an event, if anything does. Each kind is written in its place at once: a short one isn't moved with the
/// room of a long one.
fn note_told(radio: &mut Radio, node: u8, at: Stamp, first: &First) -> Result<(), NoMemory>
    ensures { OnOk result (AddsToAir radio.old radio.new (map (aired_at at node) (option_to_list first.now)) []) }
{
    match first.told() {
        FirstTold::Nothing => Ok(()),
        FirstTold::Keep => note_first(radio, node, at, Some(Air::Keep)),
        FirstTold::Got { number, from } => {
            note_first(radio, node, at, Some(Air::Got { number, from }))
        }
        FirstTold::Noise(bytes) => {
            let bytes = copy_of(bytes);
            note_first(radio, node, at, Some(Air::Noise { bytes }))
        }
    }
}

/// The length of the interval that begins, if one does.
fn length_begun(begins: bool, timer: &Trickle) -> Option<u32>
    ensures { result ≡ length_of begins timer.now }
{
    if begins { Some(timer.length()) } else { None }
}

/// Schedules the next period behind one that came, and the point and the end of the interval that begins, if one does.
pub(crate) fn schedule_timed(
    radio: &mut Radio,
    desc: &Description,
    node: u8,
    event: &SharedEvent,
    begins: bool,
    timer: &Trickle,
    now: u32,
) -> Result<(), NoMemory>
    requires ahead { radio.old.agenda.now ≤ now }
    requires hour { now ≤ HOUR }
    requires interval { begins ≡ true → now ≤ timer.now.running.begin }
    ensures { OnOk result (AddsToAir radio.old radio.new [] (period_items desc.now event.now now ++ interval_items begins node timer.now)) }
{
    schedule_period(radio, desc, event, now)?;
    schedule_begun(radio, node, begins, timer, now)?;
    Ok(())
}

/// Schedules the point and the end of the interval that begins, if one does.
fn schedule_begun(
    radio: &mut Radio,
    node: u8,
    begins: bool,
    timer: &Trickle,
    now: u32,
) -> Result<(), NoMemory>
    requires ahead { radio.old.agenda.now ≤ now }
    requires interval { begins ≡ true → now ≤ timer.now.running.begin }
    ensures { OnOk result (AddsToAir radio.old radio.new [] (interval_items begins node timer.now)) }
{
    if begins {
        schedule_interval(radio, node, timer.point(), timer.begin() + timer.length())
    } else {
        Ok(())
    }
}

/// Schedules the next period behind one that came.
fn schedule_period(
    radio: &mut Radio,
    desc: &Description,
    event: &SharedEvent,
    now: u32,
) -> Result<(), NoMemory>
    requires ahead { radio.old.agenda.now ≤ now }
    requires hour { now ≤ HOUR }
    ensures { OnOk result (AddsToAir radio.old radio.new [] (period_items desc.now event.now now)) }
{
    match event {
        SharedEvent::Planned(_) => Ok(()),
        SharedEvent::Period { node, handler } => schedule_next(radio, desc, *node, *handler, now),
        SharedEvent::Fire { .. } => Ok(()),
        SharedEvent::Expire { .. } => Ok(()),
        SharedEvent::Pump { .. } => Ok(()),
        SharedEvent::Due { .. } => Ok(()),
        SharedEvent::Deliver { .. } => Ok(()),
    }
}

/// Schedules the handler's next period, if it is a timer's.
fn schedule_next(
    radio: &mut Radio,
    desc: &Description,
    node: u8,
    handler: HandlerId,
    now: u32,
) -> Result<(), NoMemory>
    requires ahead { radio.old.agenda.now ≤ now }
    requires hour { now ≤ HOUR }
    ensures { OnOk result (AddsToAir radio.old radio.new [] (next_items (handler_period desc.now handler) node handler now)) }
{
    match period_of(desc, handler) {
        Some(period) => schedule(radio, now + period, SharedEvent::Period { node, handler }),
        None => Ok(()),
    }
}

/// The period of the handler in ms; None if it is no timer's.
fn period_of(desc: &Description, handler: HandlerId) -> Option<u32>
    ensures value { result ≡ handler_period desc.now handler }
    ensures range { (p : ℕ) → result ≡ Some p → p ≤ HOUR }
{
    match desc.handlers.as_slice().get(usize::from(handler.0)) {
        Some(handler) => period_in(handler.kind),
        None => None,
    }
}

/// The period that is in the kind.
fn period_in(kind: HandlerKind) -> Option<u32>
    ensures { result ≡ period_in_kind kind }
{
    match kind {
        HandlerKind::Plain => None,
        HandlerKind::Timer { period } => Some(period),
        HandlerKind::Receive => None,
        HandlerKind::Once => None,
    }
}

/// The node sends these packets, and then the messages that the entries call for.
pub(crate) fn send_packets(
    radio: &mut Radio,
    desc: &Description,
    node: u8,
    packets: &[Packet],
    entries: &[Stamped],
    at: Stamp,
) -> Result<(), NoMemory>
    requires ahead { radio.old.agenda.now ≤ at.time }
    requires hour { at.time ≤ HOUR }
    requires few { air_room radio.old node (length packets.now + length entries.now) < 4000000000 }
    requires right { All (IsRightPacket (length desc.now.handlers.items)) packets.now }
    ensures sends { OnOk result ((w : World) (senders : List ℕ) (l : Log) → w.description ≡ desc.now → IsAirOf w senders radio.old →
        SendsAll w node at senders (packets.now ++ messages w (map (λ (e : StampedEntry). journal_entry l e.entry) entries.now)) radio.old
        radio.new) }
    ensures now { OnOk result (radio.new.agenda.now ≡ radio.old.agenda.now) }
{
    send_all(radio, desc, node, packets, at)?;
    send_messages(radio, desc, node, entries, at)?;
    Ok(())
}

/// Schedules a pump if none is due and something is marked. True exactly if one is due then.
pub(crate) fn schedule_pump(
    radio: &mut Radio,
    desc: &Description,
    node: u8,
    pumps: bool,
    marked: bool,
    now: u32,
) -> Result<bool, NoMemory>
    requires ahead { radio.old.agenda.now ≤ now }
    requires hour { now ≤ HOUR }
    ensures due { IfOk result (λ due. due ≡ (pumps || marked)) }
    ensures adds { IfOk result (λ _. AddsToAir radio.old radio.new [] (pump_items desc.now node now (not pumps && marked))) }
{
    if !pumps && marked {
        schedule(radio, now + desc.radio.gap, SharedEvent::Pump { node })?;
        return Ok(true);
    }
    Ok(pumps)
}
