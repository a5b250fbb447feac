//! The laws of reports. Each is the contract of a function that does nothing.

ghost use Rattle.std.specs.Prelude.{List};
ghost use Rattle.vm_shape.specs.declared.description.Description.{Description};
ghost use Rattle.mate_journal.specs.Machine.{Meaning};
ghost use Rattle.mate_journal.specs.NodeScript.{Step, RunEnd};
ghost use Rattle.mate_journal.specs.NodeReport.{IsNodeReport};
ghost use Rattle.mate_journal.specs.declared.report.Report.{Report};
ghost use Rattle.report_writer.specs.Tidy.{IsTidy};

/// The report of a node script is tidy.
pub fn node_report_is_tidy()
    ensures { (d : Description) (meaning : Meaning) (steps : List Step) (how : RunEnd) (r : Report) →
        IsNodeReport d meaning steps how r → IsTidy d r }
{}
