//! Who waits for the answers to its calls.

ghost use Rattle.mate_journal.specs.Machine.{Machine};
ghost use Rattle.journal_laws.specs.Waiting.{JournalsWaitApart, JournalsWaitSmall, WaitingGoesOn, SettlingLeavesWaiting, SettlingAwaits};
ghost use Rattle.journal_laws.specs.Waiting.{SettlingTellsFew};

/// In a well-formed journal the invocations that wait have contexts of their own; of a machine with at most `CONTEXTS_MAX`
/// contexts, these are below that number.
pub fn waits_are_apart()
    ensures apart { (m : Machine) → JournalsWaitApart m }
    ensures small { (m : Machine) → JournalsWaitSmall m }
{}

/// After a well-formed journal an invocation that waits stays as it is, until an entry answers it or begins an era.
pub fn waiting_goes_on()
    ensures { (m : Machine) → WaitingGoesOn m }
{}

/// While the turns of a node settle, and each entry may follow, an invocation that waits goes on waiting; and one that calls
/// then waits at their end.
pub fn settling_leaves_waiting()
    ensures stays { (m : Machine) → SettlingLeavesWaiting m }
    ensures awaits { (m : Machine) → SettlingAwaits m }
{}

/// While the turns of a node settle, at most two entries for each of `CONTEXTS_MAX` contexts are made.
pub fn settling_tells_few()
    ensures { (m : Machine) → SettlingTellsFew m }
{}
