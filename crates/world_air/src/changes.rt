//! What an event records, cancels and schedules on the radio, apart from packets.

ghost use Rattle.std.specs.Prelude.{◌≡◌, ◌≤◌, ◌∷◌, ◌++◌, [], map, OnOk};
ghost use Rattle.std.specs.Option.{option_to_list};
ghost use Rattle.radio_sim.specs.Events.{cancel_number};
ghost use Rattle.world_air.specs.Air.{aired_at};
ghost use Rattle.world_air.specs.Changes.{AddsToAir, CancelsAll, left_items, if_begins};
ghost use Rattle.radio_sim.specs.declared.shared_event.SharedEvent.TheVariants as radio_event;

use mate_journal::{Air, Aired};
use mate_num::{NoMemory, Stamp};
use radio_sim::{Cancel, Radio, SharedEvent};

/// Which events of a node end with what comes to it.
#[derive(Clone, Copy)]
pub struct Ends {
    /// The point and the end of its interval.
    pub interval: bool,
    /// The pump that is due.
    pub pump: bool,
    /// The answers that are waited for.
    pub answers: bool,
}

/// Cancels what ends of the node.
pub fn cancel(radio: &mut Radio, node: u8, ends: Ends)
    ensures { CancelsAll node ends radio.old radio.new }
{
    cancel_if(radio, ends.interval, Cancel::Timer(node));
    cancel_if(radio, ends.pump, Cancel::Pump(node));
    cancel_if(radio, ends.answers, Cancel::Answers(node));
}

/// Cancels, or does nothing, as in most events.
#[inline(always)]
fn cancel_if(radio: &mut Radio, ends: bool, which: Cancel)
    ensures { radio.new ≡ record radio.old {
      agenda = record radio.old.agenda
          { items = left_items ends (cancel_number which) radio.old.agenda.items };
    } }
{
    if ends {
        radio.cancel(which);
    }
}

/// Records one thing of the air. It is inlined, so that a short record isn't moved with the room of a long one.
#[inline(always)]
pub fn note(radio: &mut Radio, node: u8, at: Stamp, air: Air) -> Result<(), NoMemory>
    ensures { OnOk result (AddsToAir radio.old radio.new (aired_at at node air ∷ []) []) }
{
    radio.note(Aired {
        stamp: at,
        node,
        air,
    })?;
    Ok(())
}

/// Records what comes first in an event, if anything does. It is inlined, as `note` is.
#[inline(always)]
pub fn note_first(
    radio: &mut Radio,
    node: u8,
    at: Stamp,
    first: Option<Air>,
) -> Result<(), NoMemory>
    ensures { OnOk result (AddsToAir radio.old radio.new (map (aired_at at node) (option_to_list first)) []) }
{
    match first {
        Some(air) => note(radio, node, at, air),
        None => Ok(()),
    }
}

/// Records the length of the interval that begins, if one does.
pub fn note_interval(
    radio: &mut Radio,
    node: u8,
    at: Stamp,
    length: Option<u32>,
) -> Result<(), NoMemory>
    ensures { OnOk result (AddsToAir radio.old radio.new (map (aired_at at node) (if_begins length)) []) }
{
    match length {
        Some(length) => note(radio, node, at, Air::Interval { length }),
        None => Ok(()),
    }
}

/// Schedules an event.
pub fn schedule(radio: &mut Radio, time: u32, event: SharedEvent) -> Result<(), NoMemory>
    requires { radio.old.agenda.now ≤ time }
    ensures { OnOk result (AddsToAir radio.old radio.new [] (record { time = time; item = event } ∷ [])) }
{
    radio.schedule_shared(time, event)?;
    Ok(())
}

/// Schedules the point and the end of a node's interval.
pub fn schedule_interval(radio: &mut Radio, node: u8, point: u32, end: u32) -> Result<(), NoMemory>
    requires point { radio.old.agenda.now ≤ point }
    requires end { radio.old.agenda.now ≤ end }
    ensures { OnOk result (AddsToAir radio.old radio.new [] (record { time = point; item = radio_event.Fire node }
        ∷ record { time = end; item = radio_event.Expire node } ∷ [])) }
{
    schedule(radio, point, SharedEvent::Fire { node })?;
    schedule(radio, end, SharedEvent::Expire { node })?;
    Ok(())
}
