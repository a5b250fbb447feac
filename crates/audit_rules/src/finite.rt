//! The laws of a journal that is read with a small state. Each is what a function promises that does nothing.

ghost use Rattle.std.specs.Prelude.{◌↔◌, Decides, IsTrue, List};
ghost use Rattle.mate_journal.specs.Machine.{Machine};
ghost use Rattle.mate_journal.specs.Journal.{TimedEntry, JournalEntry, NodeState, first_state, next_state, AtEachEntry};
ghost use Rattle.mate_journal.specs.WellFormed.{MayFollow, IsWellFormed};
ghost use Rattle.mate_journal.specs.Serial.{IsSerial};
ghost use Rattle.mate_journal.specs.Grants.{GrantsInOrder};
ghost use Rattle.audit_rules.specs.Roll.{Roll, nobody, rolled, IsRoll, LiveAreInstalled};
ghost use Rattle.audit_rules.specs.Following.{entries_follow, may_follow};
ghost use Rattle.audit_rules.specs.Granting.{ConflictTest, TellsConflicts, grants_in_order};
ghost use Rattle.audit_rules.specs.Replay.{GoesByParts, ReplaysAtEnds};
ghost use Rattle.audit_rules.specs.Rerun.{replays_right};
ghost use Rattle.audit_rules.specs.Shown.{ShowsValuesAt, SeenLengths, KeepsLengths, stores_right};

/// Who is live is enough to decide whether the entries of a journal follow one another.
pub fn following_is_told()
    ensures { (m : Machine) (es : List TimedEntry) → Decides (entries_follow m es) (IsWellFormed m (first_state m) es) }
{}

/// Whoever is live has the program that is installed for its handler: at the beginning, and after each entry that may follow.
pub fn programs_are_installed()
    ensures begins { LiveAreInstalled nobody }
    ensures goes_on { (m : Machine) (x : Roll) (t : JournalEntry) → IsTrue (may_follow m x t) → LiveAreInstalled x
        → LiveAreInstalled (rolled x t) }
{}

/// Who is live is enough to decide whether a journal whose entries follow one another keeps the grant rule.
pub fn grants_are_told()
    ensures { (m : Machine) (conflict : ConflictTest) (es : List TimedEntry) → TellsConflicts m.meaning conflict
        → IsWellFormed m (first_state m) es →
        Decides (grants_in_order conflict nobody 0 es) (GrantsInOrder m (first_state m) 0 es) }
{}

/// A journal whose entries follow one another is serial exactly if its runs are right at ends alone: at the end of each
/// invocation, and at the end of its era. If one ends that conflicts with others, these are run before it and after it.
pub fn ends_are_enough()
    ensures { (m : Machine) (conflict : ConflictTest) (es : List TimedEntry) → GoesByParts m.meaning → TellsConflicts m.meaning conflict
        → IsWellFormed m (first_state m) es →
        IsSerial m (first_state m) es ↔ ReplaysAtEnds m (first_state m) es }
{}

/// Runs at ends are enough to decide whether such a journal is serial.
pub fn replay_is_told()
    ensures { (m : Machine) (conflict : ConflictTest) (es : List TimedEntry) → GoesByParts m.meaning → TellsConflicts m.meaning conflict
        → IsWellFormed m (first_state m) es →
        Decides (replays_right m conflict nobody m.zero_store es) (IsSerial m (first_state m) es) }
{}

/// Who is live, and the runs of those that wait, are enough to decide whether such a journal shows the right values.
pub fn stores_are_told()
    ensures { (m : Machine) (es : List TimedEntry) → KeepsLengths m → SeenLengths m es → IsWellFormed m (first_state m) es →
        Decides (stores_right m nobody m.zero_store es) (AtEachEntry (ShowsValuesAt m) m (first_state m) es) }
{}
