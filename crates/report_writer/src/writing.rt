//! The text of a whole report.

ghost use Rattle.mate_files.specs.Sink.{Puts};
ghost use Rattle.report_writer.specs.Text.{text};
ghost use Rattle.report_writer.specs.Tidy.{IsTidy};

use crate::counts::count_records;
use crate::merge::records;
use crate::text::end_line;
use mate_files::{Pen, Sink, SinkFault};
use mate_journal::Report;
use mate_num::NODES_MAX;
use vm_shape::Description;

/// Writes the text of a tidy report: a line per record, in the order of events, and the last line.
///
/// A fault is the sink's, which then holds a prefix of the text. It takes no memory.
pub fn write<S: Sink>(desc: &Description, report: &Report, out: &mut S) -> Result<(), SinkFault>
    requires { IsTidy desc.now report.now }
    ensures { Puts (S.written out.old) (S.faults out.old) (S.written out.new) (S.faults out.new) result (text desc.now report.now) }
{
    let mut pen = Pen::new();
    let nodes = report.nodes().len();
    let mut cursors = [0; NODES_MAX];
    records(&mut pen, out, desc, report, &mut cursors[..nodes]);
    end_line(
        &mut pen,
        out,
        count_records(report),
        report.events(),
        nodes as u64,
        report.whole(),
    );
    pen.finish()
}
