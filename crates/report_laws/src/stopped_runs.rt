//! Laws: what a run did that was stopped is a beginning of the whole run, for a node script and for a world.

ghost use Rattle.std.specs.Prelude.{◌≡◌, ◌++◌, ℕ, List, Option};
ghost use Rattle.vm_shape.specs.declared.description.Description.{Description};
ghost use Rattle.mate_journal.specs.Journal.{journal_of};
ghost use Rattle.mate_journal.specs.Log.{Log};
ghost use Rattle.mate_journal.specs.Machine.{HeldProgram, Machine, Meaning};
ghost use Rattle.mate_journal.specs.NodeReport.{IsNodeReport};
ghost use Rattle.mate_journal.specs.NodeRun.{IsNodeRun};
ghost use Rattle.mate_journal.specs.NodeScript.{RunEnd, Step, Whole, Cut};
ghost use Rattle.mate_journal.specs.declared.report.Report.{Report};
ghost use Rattle.report_writer.specs.Text.{text};
ghost use Rattle.report_writer.specs.Writing.{IsWrittenPart};
ghost use Rattle.world_rules.specs.Report.{IsWorldReport};
ghost use Rattle.world_rules.specs.World.{world_of};
ghost use Rattle.script_steps.specs.declared.world.World.{World as Script};
ghost use Rattle.script_steps.specs.World.{IsRightWorld};
ghost use Rattle.report_laws.specs.Begins.{Begins};

/// A run that was cut is a beginning of each run in which its steps, and maybe more, were done.
pub fn fewer_steps_begin_more()
    ensures { (m : Machine) (steps more : List Step) (how : RunEnd) (l l' : Log) → (run : IsNodeRun m Cut steps l)
        → (run' : IsNodeRun m how steps l')
        → run'.events.done ≡ run.events.done ++ more → Begins (journal_of l) (journal_of l') }
{}

/// What was written of a node script's run that was stopped is a beginning of the text of the whole run.
pub fn stopped_scripts_begin_whole_ones()
    ensures { (d : Description) (meaning : Meaning) (steps : List Step) (out out' : Option (List ℕ)) (r r' : Report)
        → (left : IsWrittenPart d (IsNodeReport d meaning steps) out out' r)
        → IsNodeReport d meaning steps Whole r' → Begins left.part.front (text d r') }
{}

/// The same for a world's run.
pub fn stopped_worlds_begin_whole_ones()
    ensures { (d : Description) (meaning : Meaning) (script : Script) (programs : ℕ
        → HeldProgram) (out out' : Option (List ℕ)) (r r' : Report) → IsRightWorld d script
        → (left : IsWrittenPart d (IsWorldReport (world_of d meaning script programs)) out out' r)
        → IsWorldReport (world_of d meaning script programs) Whole r' → Begins left.part.front (text d r') }
{}
