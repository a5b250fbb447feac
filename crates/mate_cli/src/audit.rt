//! The command `audit`.

ghost use Rattle.std.specs.Prelude.{◌≤◌, length, IfOk};
ghost use Rattle.mate_cli.specs.Audit.{audit, audit_by, audit_of, report_of_file, report_in, serial};
ghost use Rattle.command_documents.specs.Outputs.{CanBeWritten, owed_in};
ghost use Rattle.mate_files.specs.declared.files.TheConstants.{FILE_MAX};
ghost use Rattle.command_steps.specs.Parts.{ReadsFiles};
ghost use Rattle.node_programs.specs.Right.{AreRightPrograms};
ghost use Rattle.report_writer.specs.Tidy.{IsTidy};

use command_documents::{BoxedMachine, Document, Output};
use command_line::Audit;
use command_programs::programs_named;
use command_refusals::{Refusal, Refutation};
use command_steps::read_file;
use mate_files::Files;
use mate_journal::{Report, StoredPrograms};
use report_audit::Verdict;
use report_text::TextFault;
use std::alloc::Global;
use vm_shape::Description;

/// The document that says that the report shows serial behaviour of what the script runs; or why it doesn't.
#[inline(never)]
pub fn output<F: Files>(alloc: Global, files: &mut F, words: Audit<'_>) -> Result<Output, Refusal>
    ensures does { audit (record { told = F.contents files.old; steady = F.steady files.old }) words.entry.fold words.entry.machine.now
        words.entry.script.now words.entry.report.now (owed_in result) }
    ensures reads { ReadsFiles (F.contents files.old) (F.steady files.old) (F.faults files.old) (F.contents files.new)
        (F.steady files.new) (F.faults files.new) result }
    ensures writable { IfOk result CanBeWritten }
{
    let machine = BoxedMachine::named(alloc, files, words.machine)?;
    audit_by(alloc, files, machine.description(), words)
}

/// The same for this machine.
#[inline(never)]
fn audit_by<F: Files>(
    alloc: Global,
    files: &mut F,
    desc: &Description,
    words: Audit<'_>,
) -> Result<Output, Refusal>
    ensures does { audit_by (record { told = F.contents files.old; steady = F.steady files.old }) words.entry.fold desc.now
        words.entry.script.now words.entry.report.now (owed_in result) }
    ensures reads { ReadsFiles (F.contents files.old) (F.steady files.old) (F.faults files.old) (F.contents files.new)
        (F.steady files.new) (F.faults files.new) result }
    ensures writable { IfOk result CanBeWritten }
{
    let programs = programs_named(alloc, files, desc, words.fold, words.script)?;
    audit_of(alloc, files, desc, &programs, words.report)
}

/// The same for these programs, and the report in a file.
#[inline(never)]
fn audit_of<F: Files>(
    alloc: Global,
    files: &mut F,
    desc: &Description,
    programs: &StoredPrograms,
    name: &str,
) -> Result<Output, Refusal>
    requires { AreRightPrograms desc.now programs.now }
    ensures does { audit_of (record { told = F.contents files.old; steady = F.steady files.old }) desc.now programs.now name.now
        (owed_in result) }
    ensures reads { ReadsFiles (F.contents files.old) (F.steady files.old) (F.faults files.old) (F.contents files.new)
        (F.steady files.new) (F.faults files.new) result }
    ensures writable { IfOk result CanBeWritten }
{
    let report = report_of_file(alloc, files, desc, name)?;
    serial(alloc, desc, programs, &report)?;
    Ok(Output::Document(Document::Serial))
}

/// The report in a file.
#[inline(never)]
fn report_of_file<F: Files>(
    alloc: Global,
    files: &mut F,
    desc: &Description,
    name: &str,
) -> Result<Report, Refusal>
    ensures does { report_of_file (record { told = F.contents files.old; steady = F.steady files.old }) desc.now name.now result }
    ensures reads { ReadsFiles (F.contents files.old) (F.steady files.old) (F.faults files.old) (F.contents files.new)
        (F.steady files.new) (F.faults files.new) result }
    ensures tidy { IfOk result (IsTidy desc.now) }
{
    let bytes = read_file(alloc, files, name)?;
    report_in(alloc, desc, bytes.as_slice())
}

/// The report in these bytes.
#[inline(never)]
fn report_in(alloc: Global, desc: &Description, bytes: &[u8]) -> Result<Report, Refusal>
    requires { length bytes.now ≤ FILE_MAX }
    ensures does { report_in desc.now bytes.now result }
    ensures tidy { IfOk result (IsTidy desc.now) }
{
    match report_text::read(alloc, desc, bytes) {
        Ok(report) => Ok(report),
        Err(TextFault::BadLine { line }) => Err(Refusal::Refuted(Refutation::Line { line })),
        Err(TextFault::NoMemory) => Err(Refusal::NoMemory),
    }
}

/// The refutation of the report for the programs, if it isn't serial.
#[inline(never)]
fn serial(
    alloc: Global,
    desc: &Description,
    programs: &StoredPrograms,
    report: &Report,
) -> Result<(), Refusal>
    requires tidy { IsTidy desc.now report.now }
    requires right { AreRightPrograms desc.now programs.now }
    ensures { serial desc.now programs.now report.now result }
{
    match report_audit::audit_stored(alloc, desc, programs, report) {
        Ok(Verdict::Serial) => Ok(()),
        Ok(Verdict::Refuted { node, law }) => Err(Refusal::Refuted(Refutation::Node { node, law })),
        Err(_) => Err(Refusal::NoMemory),
    }
}
