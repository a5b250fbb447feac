//! The laws of reports that are read. Each is what a function promises that does nothing.

ghost use Rattle.std.specs.Prelude.{◌≡◌, List, ℕ};
ghost use Rattle.vm_shape.specs.declared.description.Description.{Description};
ghost use Rattle.mate_journal.specs.declared.report.Report.{Report};
ghost use Rattle.report_writer.specs.Tidy.{IsTidy};
ghost use Rattle.report_line_reader.specs.declared.line.Line.{Line};
ghost use Rattle.report_text.specs.Reads.{AreLines, IsBadLine, AreOfReport};
ghost use Rattle.report_text.specs.declared.last_line.LastLine.{LastLine};

/// A report whose text is read is tidy.
pub fn read_report_is_tidy()
    ensures { (d : Description) (bytes : List ℕ) (r : Report) → AreOfReport d bytes r → IsTidy d r }
{}

/// For any bytes at most one verdict holds: they are the lines of one report, or one line is the bad one, and never both. So `read`
/// refuses exactly what isn't the text of lines that fit, at the first bad line.
pub fn one_verdict_holds()
    ensures lines { (d : Description) (bytes : List ℕ) (ls ms : List Line) (e f : LastLine) → AreLines d bytes ls e
        → AreLines d bytes ms f → (ls ≡ ms) × (e ≡ f) }
    ensures bad { (d : Description) (bytes : List ℕ) (m n : ℕ) → IsBadLine d bytes m → IsBadLine d bytes n → m ≡ n }
    ensures apart { (d : Description) (bytes : List ℕ) (ls : List Line) (e : LastLine) (n : ℕ) → AreLines d bytes ls e
        → IsBadLine d bytes n → ⊥ }
{}
