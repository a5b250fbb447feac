//! The writing of an output.

ghost use Rattle.std.specs.Prelude.{true};
ghost use Rattle.mate_cli.specs.Ends.{IsTextWritten, IsOwedWritten, IsReportWritten, ending_of};
ghost use Rattle.command_documents.specs.Outputs.{CanBeWritten, HasPrograms, owed_of};
ghost use Rattle.command_documents.specs.Documents.{document_text, HasText};
ghost use Rattle.report_writer.specs.Summary.{summary_text, IsSmall};

use command_documents::{Document, Output, Run};
use mate_files::Sink;
use node_runs::write_steps;
use report_writer::{Summary, WriteFault, ended};
use std::alloc::Global;
use vm_shape::Description;
use world_runs::write_world;

/// Writes an output.
#[inline(never)]
pub(crate) fn write_output<S: Sink>(
    alloc: Global,
    output: &Output,
    out: &mut S,
) -> Result<(), WriteFault>
    requires { CanBeWritten output.now }
    ensures { IsOwedWritten (owed_of output.now) (record { written = S.written out.old; faults = S.faults out.old })
        (record { written = S.written out.new; faults = S.faults out.new }) (ending_of result) }
{
    match output {
        Output::Document(document) => write_document(alloc, document, out),
        Output::Summary(machine, summary) => write_summary(machine.description(), summary, out),
        Output::Run(run) => write_report(alloc, run, out),
    }
}

/// Runs a run, and writes the lines of each event when it ends. After a fault of `out` no further event is run.
#[inline(never)]
fn write_report<S: Sink>(alloc: Global, run: &Run, out: &mut S) -> Result<(), WriteFault>
    requires { HasPrograms run.now }
    ensures { IsReportWritten run.now (record { written = S.written out.old; faults = S.faults out.old })
        (record { written = S.written out.new; faults = S.faults out.new }) (ending_of result) }
{
    match run {
        Run::Script(machine, script, programs) => {
            write_steps(alloc, machine.description(), script, programs, out)
        }
        Run::World(machine, world, programs) => {
            write_world(alloc, machine.description(), world, programs, out)
        }
    }
}

/// Writes a document.
#[inline(never)]
fn write_document<S: Sink>(
    alloc: Global,
    document: &Document,
    out: &mut S,
) -> Result<(), WriteFault>
    requires { HasText document.now }
    ensures { IsTextWritten (document_text document.now) true (record { written = S.written out.old; faults = S.faults out.old })
        (record { written = S.written out.new; faults = S.faults out.new }) (ending_of result) }
{
    ended(true, document.write(alloc, out))
}

/// Writes the summary of a run.
#[inline(never)]
fn write_summary<S: Sink>(
    desc: &Description,
    summary: &Summary,
    out: &mut S,
) -> Result<(), WriteFault>
    requires { IsSmall summary.now }
    ensures { IsTextWritten (summary_text desc.now summary.now) summary.now.whole
        (record { written = S.written out.old; faults = S.faults out.old })
        (record { written = S.written out.new; faults = S.faults out.new }) (ending_of result) }
{
    ended(summary.whole, summary.write(desc, out))
}
