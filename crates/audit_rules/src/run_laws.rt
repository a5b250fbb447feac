//! Laws of runs. Each is what a function promises that does nothing.

ghost use Rattle.mate_num.specs.declared.shape.Shape.{Shape};
ghost use Rattle.audit_rules.specs.Replay.{GoesByParts};
ghost use Rattle.audit_rules.specs.Granting.{TellsConflicts};
ghost use Rattle.audit_rules.specs.CodeMeaning.{CodeOf, meaning_with, conflict_with};

/// Runs of code go by parts: if one took all its answers, it waited for the last one after the calls before; and compatible programs
/// that ran before change neither its end nor its calls.
pub fn runs_go_by_parts()
    ensures { (shape : Shape) (code : CodeOf) → GoesByParts (meaning_with shape code) }
{}

/// The resources that two programs' code names are enough to decide whether they conflict.
pub fn conflicts_are_told()
    ensures { (shape : Shape) (code : CodeOf) → TellsConflicts (meaning_with shape code) (conflict_with shape code) }
{}
