//! The laws of right programs. Each is the contract of a function that does nothing.

ghost use Rattle.std.specs.Prelude.{◌≡◌, List};
ghost use Rattle.vm_shape.specs.Shapes.{shape_of};
ghost use Rattle.vm_shape.specs.declared.description.Description.{Description};
ghost use Rattle.mate_journal.specs.NodeScript.{Step, RunEnd};
ghost use Rattle.mate_journal.specs.NodeReport.{IsNodeReport};
ghost use Rattle.mate_journal.specs.declared.program.Program.{Program};
ghost use Rattle.mate_journal.specs.declared.report.Report.{Report};
ghost use Rattle.node_state.specs.Meaning.{meaning_of};
ghost use Rattle.node_programs.specs.Right.{AreRightPrograms};
ghost use Rattle.node_programs.specs.Sources.{meaning_by};

/// Right programs mean by their sources what the code of their images means.
pub fn sources_mean_what_their_code_does()
    ensures { (d : Description) (ps : List Program) → AreRightPrograms d ps → meaning_by d ps ≡ meaning_of (shape_of d) }
{}

/// So a report that is right by the code of the installed images is right by the sources of the programs, too.
pub fn reports_hold_by_the_sources()
    ensures { (d : Description) (ps : List Program) (steps : List Step) (how : RunEnd) (r : Report) →
        AreRightPrograms d ps → IsNodeReport d (meaning_of (shape_of d)) steps how r → IsNodeReport d (meaning_by d ps) steps how r }
{}
