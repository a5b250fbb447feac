//! Whole texts of reports, with `|` for the end of each line: `read` if the text is read and what was read is written
//! as the same text again; else the number of the first line that doesn't fit.

ghost use Rattle.report_writer.specs.Tidy.{IsTidy};

use mate_files::MemSink;
use mate_journal::Report;
use report_text::{TextFault, read};
use report_writer::write;
use std::alloc::{AllocError, Global};
use vm_shape::Description;

/// The most bytes that the reader takes.
const TEXT_MAX: usize = 4_000_000_000;

pub fn answer(alloc: Global, desc: &Description, case: &str) -> Result<String, AllocError> {
    let text = in_lines(alloc, case)?;
    if text.len() > TEXT_MAX {
        return "too long".to_string(alloc);
    }
    match read(alloc, desc, text.as_slice()) {
        Ok(report) => written_again(alloc, desc, &report, text.as_slice()),
        Err(TextFault::BadLine { line }) => format!(in alloc; "{line}"),
        Err(TextFault::NoMemory) => "no memory".to_string(alloc),
    }
}

// The bytes of the case, with an LF for each `|`.
fn in_lines(alloc: Global, case: &str) -> Result<Vec<u8>, AllocError> {
    let mut text = Vec::new(alloc);
    for byte in case.as_bytes() {
        text.push(if *byte == b'|' { b'\n' } else { *byte })?;
    }
    Ok(text)
}

fn written_again(
    alloc: Global,
    desc: &Description,
    report: &Report,
    text: &[u8],
) -> Result<String, AllocError>
    requires { IsTidy desc.now report.now }
{
    let mut sink = MemSink::new(alloc);
    match write(desc, report, &mut sink) {
        Ok(()) if sink.bytes() == text => "read".to_string(alloc),
        Ok(()) => "another text".to_string(alloc),
        Err(_) => "no text".to_string(alloc),
    }
}
