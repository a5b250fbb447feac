//! What is promised of a report holds of each.

ghost use Rattle.std.specs.Prelude.{List};
ghost use Rattle.vm_shape.specs.declared.description.Description.{Description};
ghost use Rattle.mate_journal.specs.NodeScript.{RunEnd};
ghost use Rattle.mate_journal.specs.Ranges.{HasReportRanges};
ghost use Rattle.mate_journal.specs.declared.program.Program.{Program};
ghost use Rattle.mate_journal.specs.declared.report.Report.{Report};
ghost use Rattle.node_programs.specs.WorldPrograms.{AreProgramsOfWorld};
ghost use Rattle.script_steps.specs.declared.world.World.{World as Script};
ghost use Rattle.world_rules.specs.Report.{IsWorldReport};
ghost use Rattle.world_run_laws.specs.Coming.{code_world};
ghost use Rattle.world_run_laws.specs.Promise.{IsReportOfWorld};

use crate::laws::{reports_keep_the_bound, world_report_is_tidy};
use crate::states::worlds_hold_by_their_sources;
use journal_laws::{ends_as_posted, is_never_stuck};

/// A report of the world whose nodes run their code keeps all that is promised of one, where its numbers are in the ranges of their types.
pub fn reports_keep_the_promise()
    ensures { (d : Description) (script : Script) (ps : List Program) (how : RunEnd) (r : Report) →
        AreProgramsOfWorld d script ps → IsWorldReport (code_world d script ps) how r → HasReportRanges r
        → IsReportOfWorld d script ps how r }
{
    worlds_hold_by_their_sources();
    world_report_is_tidy();
    reports_keep_the_bound();
    is_never_stuck();
    ends_as_posted();
}
