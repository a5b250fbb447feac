//! What stands on the air of a whole run of a world: packets with what becomes of them, and timers.

ghost use Rattle.world_rules.specs.World.{World};
ghost use Rattle.world_laws.specs.PacketRecords.{EventsSendTheirs, LossesFollowDirectly, PacketsAreDecided, PacketsAreNumbered};
ghost use Rattle.world_laws.specs.PacketRecords.{PacketsArriveOnce, ReachedIsDone, SentHaveReasons};
ghost use Rattle.world_laws.specs.TimerRecords.{EndsAreTimely, FirstIntervalsRun, IntervalsAreTold, IntervalsRun, PointsAreTimely};
ghost use Rattle.world_laws.specs.TimerRecords.{PointsAreTold};

/// Each packet is decided link by link: its record is directly followed by one Lost for each link that leaves its node and
/// loses it by its next word, in link order, and nothing else is lost. Packets are numbered from 1.
pub fn packets_are_decided()
    ensures numbered { (w : World) → PacketsAreNumbered w }
    ensures decided { (w : World) → PacketsAreDecided w }
    ensures directly { (w : World) → LossesFollowDirectly w }
{}

/// Each link that doesn't lose a packet has exactly one Got of it, the radio's delay later, where the run reached that time:
/// at each time in order of transmission and then in link order. There is no other Got.
pub fn packets_arrive_once()
    ensures arrive { (w : World) → PacketsArriveOnce w }
    ensures reached { (w : World) → ReachedIsDone w }
{}

/// Each packet on the air was sent by an event for a reason, and an event sends just its packets, in their order.
pub fn packets_are_sent_for_reasons()
    ensures reasons { (w : World) → SentHaveReasons w }
    ensures theirs { (w : World) → EventsSendTheirs w }
{}

/// A node's Interval records are the beginnings of its timer's intervals; each interval comes to its point and to its end at
/// their times, unless a new one begins before; and each point has a Keep or a Vector, as the rule decides.
pub fn timers_are_told()
    ensures intervals { (w : World) → IntervalsAreTold w }
    ensures points { (w : World) → PointsAreTold w }
    ensures timely_points { (w : World) → PointsAreTimely w }
    ensures timely_ends { (w : World) → EndsAreTimely w }
    ensures first { (w : World) → FirstIntervalsRun w }
    ensures run { (w : World) → IntervalsRun w }
{}
