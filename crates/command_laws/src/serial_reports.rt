//! What a node and a world tell of their runs is found serial.

ghost use Rattle.std.specs.Prelude.{◌≤◌, length, List, Result, All};
ghost use Rattle.vm_shape.specs.declared.description.Description.{Description};
ghost use Rattle.mate_journal.specs.NodeReport.{IsNodeReport};
ghost use Rattle.mate_journal.specs.NodeScript.{Step, RunEnd};
ghost use Rattle.mate_journal.specs.Ranges.{HasReportRanges};
ghost use Rattle.mate_journal.specs.declared.program.Program.{Program};
ghost use Rattle.mate_journal.specs.declared.report.Report.{Report};
ghost use Rattle.node_programs.specs.ScriptSteps.{IsProgramOf, steps_of};
ghost use Rattle.node_programs.specs.Sources.{meaning_by};
ghost use Rattle.node_programs.specs.WorldPrograms.{AreProgramsOfWorld};
ghost use Rattle.script_steps.specs.Steps.{NodeScript};
ghost use Rattle.script_steps.specs.declared.world.World.{World as Script};
ghost use Rattle.report_writer.specs.Text.{text};
ghost use Rattle.report_writer.specs.Tidy.{IsTidy};
ghost use Rattle.report_text.specs.Parts.{IsSameReport};
ghost use Rattle.report_text.specs.Reads.{ReadsReport};
ghost use Rattle.report_text.specs.declared.fault.TextFault.{TextFault};
ghost use Rattle.world_rules.specs.Report.{IsWorldReport};
ghost use Rattle.world_run_laws.specs.SourceWorld.{source_world};
ghost use Rattle.audit_rules.specs.Verdicts.{IsVerdict};
ghost use Rattle.mate_journal.specs.declared.law.Verdict.{Verdict};
ghost use Rattle.mate_journal.specs.declared.law.Verdict.TheVariants.{Serial};
ghost use Rattle.command_laws.specs.NodeInstalls.{InstallPrograms};
ghost use Rattle.command_laws.specs.Reading.{IsReadWith};

/// What a node tells of the steps of a script is serial for the programs that the steps install, however its run ends: whole, at
/// a full log, or cut from outside. The steps of a script install its programs, if each is of its line.
pub fn node_reports_are_serial()
    ensures steps { (d : Description) (ps : List Program) (steps : List Step) (how : RunEnd) (r : Report) →
        InstallPrograms ps steps → IsNodeReport d (meaning_by d ps) steps how r → IsVerdict d ps r Serial }
    ensures installs { (script : NodeScript) (ps : List Program) → All (IsProgramOf ps) script.steps
        → InstallPrograms ps (steps_of script ps) }
{}

/// What the nodes of a world tell is serial for the programs that its script injects, however its run ends.
pub fn world_reports_are_serial()
    ensures { (d : Description) (script : Script) (ps : List Program) (how : RunEnd) (r : Report) →
        AreProgramsOfWorld d script ps → IsWorldReport (source_world d script ps) how r → IsVerdict d ps r Serial }
{}

/// A report that is read back from its text has the verdict that it had; and the text of a tidy report whose numbers are in the ranges of
/// their types is read, where it has at most 4,000,000,000 bytes, but for want of memory.
pub fn verdicts_are_read_back()
    ensures same { (d : Description) (ps : List Program) (x r : Report) (v : Verdict) → IsSameReport x r → IsVerdict d ps r v
        → IsVerdict d ps x v }
    ensures text { (d : Description) (ps : List Program) (r : Report) (v : Verdict) (answer : Result Report TextFault) →
        length (text d r) ≤ 4000000000 → IsTidy d r → HasReportRanges r → IsVerdict d ps r v → ReadsReport d (text d r) answer
        → IsReadWith d ps v answer }
{}
