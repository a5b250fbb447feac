//! Of causes and their order, calls and answers, packets, intervals, journals, and what comes from outside.

ghost use Rattle.world_rules.specs.World.{World};
ghost use Rattle.world_laws.specs.Arrivals.{ArrivalsWereSent, SentArrive};
ghost use Rattle.world_laws.specs.Calls.{AnswersWereCalled, CallsAreAnswered};
ghost use Rattle.world_laws.specs.Causes.{ComeInOrder, EachComes, PeriodsCome};
ghost use Rattle.world_laws.specs.Packets.{ExchangesStand, InstallsHaveReasons, PacketsHaveReasons};
ghost use Rattle.world_laws.specs.Journals.{ReadsJournals};
ghost use Rattle.world_laws.specs.Slots.{SendsInTime};
ghost use Rattle.world_laws.specs.Times.{FiresInTime, IsRightSet};
ghost use Rattle.world_laws.specs.Timing.{PointsDecide, TimersStand};
ghost use Rattle.world_laws.specs.Given.{CalledAreTold, EventsGiveTheirs, JournalsTellWhatCame, PostsHaveTheirPayload};

/// At one time the events stand in the order in which their causes were scheduled, each once; and each cause whose time the
/// run reached has its event at that time, unless an event before it cancels it. So each multiple of a timer handler's period that
/// the run reached has its event.
pub fn causes_have_events()
    ensures order { (w : World) → ComeInOrder w }
    ensures each { (w : World) → EachComes w }
    ensures periods { (w : World) → PeriodsCome w }
{}

/// A node that isn't reset comes to a point of its timer within twice the longest interval from any moment, and sends a
/// fragment that it owes within the time of one round of all fragments.
pub fn nodes_are_prompt()
    ensures points { (w : World) → IsRightSet w.description.trickle → FiresInTime w }
    ensures slots { (w : World) → IsRightSet w.description.trickle → SendsInTime w }
{}

/// What the rules have heard of a node is what its journal tells.
pub fn rules_read_journals()
    ensures { (w : World) → ReadsJournals w }
{}

/// Each call is answered after the function's latency, with the value that the call's place among the node's calls gives, unless
/// an event before cuts its invocation; and each answer is of such a call.
pub fn calls_are_answered()
    ensures answered { (w : World) → CallsAreAnswered w }
    ensures called { (w : World) → AnswersWereCalled w }
{}

/// Over each link that leaves the sender a packet that the link's next word doesn't lose arrives after the radio's delay; and
/// each arrival is of such a packet.
pub fn packets_arrive()
    ensures arrive { (w : World) → SentArrive w }
    ensures sent { (w : World) → ArrivalsWereSent w }
{}

/// A node's intervals are those of the timer's rules over all that happened to it, and each point decides by them.
pub fn timers_keep_their_rules()
    ensures stand { (w : World) → TimersStand w }
    ensures decide { (w : World) → PointsDecide w }
{}

/// Each packet that is sent is the Vector of a point, a request on a Vector, the fragment of the next marked slot, or the message
/// of a call; a node's exchange looks back over all that happened to it; and each install comes from a line, or from a packet
/// that makes what was collected complete, and is then of just that.
pub fn exchanges_keep_their_rules()
    ensures reasons { (w : World) → PacketsHaveReasons w }
    ensures stand { (w : World) → ExchangesStand w }
    ensures installs { (w : World) → InstallsHaveReasons w }
{}

/// Each occasion makes one Post or one Dropped, with the occasion's payload; each answer that comes, each install and each
/// reset has one entry; a store is seen where a line shows it and before each install and reset; and nothing else is posted,
/// answered, installed, reset, seen or refused.
pub fn events_tell_theirs()
    ensures events { (w : World) → EventsGiveTheirs w }
    ensures journals { (w : World) → JournalsTellWhatCame w }
    ensures payloads { (w : World) → PostsHaveTheirPayload w }
{}

/// The calls that are counted for an answer's value are all that the node's journal tells.
pub fn calls_are_told()
    ensures { (w : World) → CalledAreTold w }
{}
