//! How fast a version spreads: a hop in three of the longest intervals, and so over any number of hops.

ghost use Rattle.world_rules.specs.World.{World};
ghost use Rattle.world_laws.specs.HopBound.{HopBound, IsRightPlan};
ghost use Rattle.world_laws.specs.Premises.{CapsulesHaveFewFragments, InjectedAreVersions, InjectedIsInstalled, OpenScriptsAreOpen};
ghost use Rattle.world_laws.specs.Premises.{RightScriptsAreNetworks, RightScriptsPlanRightly, ScriptsInstallsAreNewer};
ghost use Rattle.world_laws.specs.Passing.{InjectionsPass, IsRightNetwork, PathsPass, WindowsPass};
ghost use Rattle.world_laws.specs.Silence.{HearersAsk, SilentHeardTheirOwn, VectorsComeFromHolders};
ghost use Rattle.world_laws.specs.Spread.{HopsInTime, IsOpenWorld, SpreadsInTime};
ghost use Rattle.world_laws.specs.Newest.{IsWorldVersion, Version};

/// Whatever is lost, reset, injected or suppressed elsewhere or before: what the sender of a hop holds when a window opens, the
/// receiver holds when it closes, or something newer; and so the end of a path at the end of its last window. A node that keeps silent
/// at a point heard its own versions in that interval. A Vector that is heard came from a point of a node that held what it names,
/// and whoever hears it asks for what is newer in it.
pub fn versions_pass()
    ensures window { (w : World) → IsRightNetwork w → WindowsPass w }
    ensures path { (w : World) → IsRightNetwork w → PathsPass w }
    ensures injection { (w : World) → IsRightNetwork w → InjectionsPass w }
    ensures silent { (w : World) → IsRightNetwork w → SilentHeardTheirOwn w }
    ensures holders { (w : World) → VectorsComeFromHolders w }
    ensures hearers { (w : World) → HearersAsk w }
{}

/// With suppression off and no loss, a node holds a version that a neighbour held, three of the longest intervals later,
/// and so on over any number of hops, where no node is reset and nothing newer is injected.
pub fn versions_spread()
    ensures hop { (w : World) (v : Version) → IsOpenWorld w → IsWorldVersion w v → HopsInTime w v }
    ensures hops { (w : World) (v : Version) → IsOpenWorld w → IsWorldVersion w v → SpreadsInTime w v }
{}

/// An injected version reaches a node d hops away within d times three of the longest intervals, where suppression is off
/// and nothing is lost, and until then no node is reset and nothing newer is injected for the handler.
pub fn injected_versions_arrive()
    ensures { (w : World) → IsOpenWorld w → IsRightPlan w → HopBound w }
{}

/// What the bound takes for granted holds in the world of every description with a right script and its programs, where the
/// script has suppression off and no link that loses. There each node within reach has its Install entry in time,
/// and holds this version or a newer one ever after. Whatever is lost or suppressed, a right script's world is a network over which
/// versions pass. A right script is one that the reader accepts, with programs of its lines whose images are capsules': these have 1 to `FRAGMENTS_MAX`
/// fragments, and whatever the losses, no install of such a script is refused.
pub fn scripts_keep_the_bound()
    ensures lossless { OpenScriptsAreOpen }
    ensures plan { RightScriptsPlanRightly }
    ensures network { RightScriptsAreNetworks }
    ensures fragments { CapsulesHaveFewFragments }
    ensures versions { InjectedAreVersions }
    ensures newer { ScriptsInstallsAreNewer }
    ensures installed { InjectedIsInstalled }
{}
