//! Laws of journals and of verdicts. Each is what a function promises that does nothing.

ghost use Rattle.std.specs.Prelude.{◌≡◌, ◌↔◌, List, MatchOption};
ghost use Rattle.vm_shape.specs.declared.description.Description.{Description};
ghost use Rattle.mate_journal.specs.Devices.{AsksDevicesInOrder};
ghost use Rattle.mate_journal.specs.Grants.{GrantsInOrder};
ghost use Rattle.mate_journal.specs.Journal.{TimedEntry, first_state, journal_of};
ghost use Rattle.mate_journal.specs.Log.{Log};
ghost use Rattle.mate_journal.specs.Serial.{IsSerial};
ghost use Rattle.mate_journal.specs.Tidy.{IsTidyLog};
ghost use Rattle.mate_journal.specs.declared.program.Program.{Program};
ghost use Rattle.mate_journal.specs.declared.report.Report.{Report};
ghost use Rattle.node_programs.specs.Right.{AreRightPrograms};
ghost use Rattle.report_writer.specs.Tidy.{IsTidy};
ghost use Rattle.mate_journal.specs.WellFormed.{IsWellFormed};
ghost use Rattle.audit_rules.specs.Granting.{TellsConflicts};
ghost use Rattle.audit_rules.specs.Replay.{GoesByParts};
ghost use Rattle.audit_rules.specs.Shown.{KeepsLengths, SeenLengths};
ghost use Rattle.audit_rules.specs.Laws.{machine_by};
ghost use Rattle.audit_rules.specs.Tests.{conflict_of, failed_by, verdict_of};
ghost use Rattle.audit_rules.specs.Verdicts.{IsSerialReport, IsVerdict, LogKeepsAll, LogFails, TellSameJournals};
ghost use Rattle.mate_journal.specs.declared.law.Verdict.{Verdict};
ghost use Rattle.mate_journal.specs.declared.law.Verdict.TheVariants.{Serial};

/// The order of calls to devices follows from the other laws: it is never the first to fail.
pub fn devices_follow()
    ensures { (d : Description) (ps : List Program) (es : List TimedEntry) → AreRightPrograms d ps →
        IsWellFormed (machine_by d ps) (first_state (machine_by d ps)) es
        → IsSerial (machine_by d ps) (first_state (machine_by d ps)) es
        → GrantsInOrder (machine_by d ps) (first_state (machine_by d ps)) 0 es →
        AsksDevicesInOrder (machine_by d ps).device_of es }
{}

/// What the tests of journals need of a machine is so if its programs are right, and what they need of stores that are seen is so in
/// tidy logs.
pub fn right_programs_can_be_told()
    ensures parts { (d : Description) (ps : List Program) → AreRightPrograms d ps → GoesByParts (machine_by d ps).meaning }
    ensures conflicts { (d : Description) (ps : List Program) → AreRightPrograms d ps
        → TellsConflicts (machine_by d ps).meaning (conflict_of d) }
    ensures lengths { (d : Description) (ps : List Program) → AreRightPrograms d ps → KeepsLengths (machine_by d ps) }
    ensures seen { (d : Description) (ps : List Program) (l : Log) → IsTidyLog d l → SeenLengths (machine_by d ps) (journal_of l) }
{}

/// The tests give the first law that a tidy log fails, if the programs are right: each law is decided.
pub fn the_first_failure_is_told()
    ensures { (d : Description) (ps : List Program) (l : Log) → AreRightPrograms d ps → IsTidyLog d l
        → MatchOption (failed_by d ps l) (LogKeepsAll d ps l) (LogFails d ps l) }
{}

/// The tests give the verdict on a tidy report, if the programs are right.
pub fn the_verdict_is_told()
    ensures { (d : Description) (ps : List Program) (r : Report) → AreRightPrograms d ps → IsTidy d r
        → IsVerdict d ps r (verdict_of d ps r) }
{}

/// A verdict depends on the journals of a report alone, and not on the room that is left in its logs.
pub fn verdicts_are_on_journals()
    ensures { (d : Description) (ps : List Program) (r s : Report) (v : Verdict) → TellSameJournals r s → IsVerdict d ps r v
        → IsVerdict d ps s v }
{}

/// A report has one verdict; and a tidy one is found serial exactly if it is a serial report.
pub fn one_verdict()
    ensures one { (d : Description) (ps : List Program) (r : Report) (v w : Verdict) → IsVerdict d ps r v → IsVerdict d ps r w → v ≡ w }
    ensures serial { (d : Description) (ps : List Program) (r : Report) → IsTidy d r → IsVerdict d ps r Serial ↔ IsSerialReport d ps r }
{}
