//! The text of a world's report, event by event: each event's lines stand behind those of all events before it.

ghost use Rattle.world_rules.specs.World.{World};
ghost use Rattle.world_laws.specs.EventText.{AllLinesStand, EventsAddTheirLines, StoresAddTheirLines, StartsWithIntervals};

/// The text of a run grows event by event, and in each event on one node.
pub fn text_grows_by_events()
    ensures starts { (w : World) → StartsWithIntervals w }
    ensures events { (w : World) → EventsAddTheirLines w }
    ensures all { (w : World) → AllLinesStand w }
    ensures stores { (w : World) → StoresAddTheirLines w }
{}
