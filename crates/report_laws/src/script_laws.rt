//! Laws: two runs of a script are the same, and so are their reports' texts.

ghost use Rattle.std.specs.Prelude.{◌≡◌, List, length};
ghost use Rattle.vm_shape.specs.declared.description.Description.{Description};
ghost use Rattle.mate_journal.specs.Journal.{journal_of};
ghost use Rattle.mate_journal.specs.Log.{Log};
ghost use Rattle.mate_journal.specs.Machine.{Machine, Meaning};
ghost use Rattle.mate_journal.specs.NodeReport.{IsNodeReport, is_whole};
ghost use Rattle.mate_journal.specs.NodeRun.{IsNodeRun};
ghost use Rattle.mate_journal.specs.NodeScript.{RunEnd, Step};
ghost use Rattle.mate_journal.specs.declared.report.Report.{Report};
ghost use Rattle.report_writer.specs.Brief.{brief};
ghost use Rattle.report_writer.specs.Text.{text};
ghost use Rattle.report_laws.specs.Ending.{EndsByItself};

/// A machine and a script determine the journal of a run that ends by itself, and whether it is whole.
pub fn script_has_one_journal()
    ensures { (m : Machine) (steps : List Step) (how how' : RunEnd) (l l' : Log) → EndsByItself how → EndsByItself how'
        → IsNodeRun m how steps l → IsNodeRun m how' steps l' → (journal_of l ≡ journal_of l') × (is_whole how ≡ is_whole how') }
{}

/// So they determine its report: the text, and the summary.
pub fn script_has_one_text()
    ensures { (d : Description) (meaning : Meaning) (steps : List Step) (how how' : RunEnd) (r r' : Report) → EndsByItself how
        → EndsByItself how'
        → IsNodeReport d meaning steps how r → IsNodeReport d meaning steps how' r'
        → (text d r ≡ text d r') × (brief d r ≡ brief d r') }
{}
