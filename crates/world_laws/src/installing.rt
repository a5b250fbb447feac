//! What is installed in a world: programs that the script injects, byte for byte.

ghost use Rattle.world_rules.specs.World.{World};
ghost use Rattle.world_laws.specs.Held.{HeldAgrees};
ghost use Rattle.world_laws.specs.Installs.{HeldNeverFalls, HeldWasInstalled, InstallsAreNewer, InstallsAreTold, InstallsItsOwn};
ghost use Rattle.world_laws.specs.Installs.{InstallsRise};
ghost use Rattle.world_laws.specs.Lines.{IsPlanTimely, LinesInOrder};
ghost use Rattle.world_laws.specs.Versions.{AreVersionsPositive, AreVersionsRising, InstallsAtMost, InstallsInjected, IsOneImage};

/// Each install is of a program that a line injected in the same or an earlier event, image and all.
pub fn installs_are_injected()
    ensures injected { (w : World) → IsOneImage w → InstallsInjected w }
    ensures most { (w : World) → IsOneImage w → InstallsAtMost w }
    ensures held { (w : World) → HeldAgrees w }
{}

/// No install is refused: whatever event comes next, what it installs is newer than what its node holds; and each event that
/// installs a program has its Install entry.
pub fn installs_are_taken()
    ensures newer { (w : World) → IsOneImage w → IsPlanTimely w → AreVersionsRising w → AreVersionsPositive w → InstallsAreNewer w }
    ensures told { (w : World) → InstallsAreTold w }
{}

/// The lines of a script have their events in their order.
pub fn lines_come_in_order()
    ensures { (w : World) → IsPlanTimely w → LinesInOrder w }
{}

/// Versions rise: an event's Install entries are of the program that the event installs; of two of them on a node for one
/// handler the later one has the greater version. What a node holds it has installed, and the held version never falls.
pub fn versions_rise()
    ensures own { (w : World) → InstallsItsOwn w }
    ensures rise { (w : World) → InstallsRise w }
    ensures never_falls { (w : World) → HeldNeverFalls w }
    ensures installed { (w : World) → HeldWasInstalled w }
{}
