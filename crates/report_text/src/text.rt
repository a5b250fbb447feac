//! A whole text as a report.

ghost use Rattle.std.specs.Prelude.{◌≡◌, ◌≤◌, ◌<◌, ◌+◌, ◌∷◌, ◌++◌, not, ◌==◌, true, List, ℕ, length, MatchOption, IfOk};
ghost use Rattle.report_writer.specs.Text.{text};
ghost use Rattle.report_writer.specs.Tidy.{IsTidy};
ghost use Rattle.std.specs.List.{prefix_len};
ghost use Rattle.vm_shape.specs.declared.description.Description.{Description};
ghost use Rattle.report_line_reader.specs.declared.line.Line.{Line};
ghost use Rattle.mate_journal.specs.Ranges.{HasReportRanges};
ghost use Rattle.mate_journal.specs.declared.report.Report.{Report};
ghost use Rattle.report_text.specs.Reads.{ReadsReport};
ghost use Rattle.report_text.specs.Written.{GivesBack};
ghost use Rattle.report_text.specs.Steps.{IsOneLine, TellsNone, HasRead, ReadsLast};

use crate::fault::TextFault;
use crate::last_line::last_line_of;
use crate::parts::Parts;
use mate_journal::Report;
use memchr::memchr;
use report_line_reader::{Bulk, light_line_of};
use std::alloc::Global;
use vm_shape::Description;

/// Reads the text of a report.
///
/// It gives the report whose text the bytes are, and refuses with `BadLine` exactly if they aren't the text of one, at the first
/// line that doesn't fit after the lines before it. The text of a tidy report is read as that report (its numbers are in the ranges
/// of their types, as every report's are: `report_is_in_range`).
pub fn read(alloc: Global, desc: &Description, bytes: &[u8]) -> Result<Report, TextFault>
    requires { length bytes.now ≤ 4000000000 }
    ensures reads { ReadsReport desc.now bytes.now result }
    ensures tidy { IfOk result (λ r. IsTidy desc.now r) }
    ensures same { IfOk result (λ r. text desc.now r ≡ bytes.now) }
    ensures back { (r : Report) → IsTidy desc.now r → HasReportRanges r → bytes.now ≡ text desc.now r → GivesBack r result }
{
    read_lines(alloc, desc, bytes)
}

fn read_lines(alloc: Global, desc: &Description, bytes: &[u8]) -> Result<Report, TextFault>
    requires { length bytes.now ≤ 4000000000 }
    ensures { ReadsReport desc.now bytes.now result }
{
    let mut parts = Parts::new(alloc)?;
    let mut bulk = Bulk::new();
    let mut left = bytes;
    while let Some((line, behind)) = first_line(left) {
        let Some(told) = light_line_of(desc, line, &mut bulk) else {
            return read_last(alloc, parts, line, behind);
        };
        parts.take(told, &bulk)?;
        left = behind;
    }
    Err(parts.bad_line())
}

/// The bytes before the first LF and those after it; None exactly if there is none.
fn first_line(bytes: &[u8]) -> Option<(&[u8], &[u8])>
    ensures { MatchOption result (IsOneLine bytes.now) (λ cut. IsOneLine cut.0.now × (bytes.now ≡ cut.0.now ++ 10 ∷ cut.1.now)) }
{
    let length = line_len(bytes);
    if length == bytes.len() {
        return None;
    }
    Some((&bytes[..length], bytes.split_at(length + 1).1))
}

/// How many bytes come before the first LF, or before the end if there is none.
fn line_len(bytes: &[u8]) -> usize
    ensures value { result ≡ prefix_len (λ b. not (b == 10)) bytes.now }
    ensures within { result ≤ length bytes.now }
{
    memchr(b'\n', bytes).unwrap_or(bytes.len())
}

/// Reads the last line, after which nothing may come.
fn read_last(alloc: Global, parts: Parts, line: &[u8], behind: &[u8]) -> Result<Report, TextFault>
    requires { parts.count ≤ 4000000000 }
    ensures { (d : Description) (ls : List Line) → HasRead d ls parts → TellsNone d line.now
        → ReadsLast d ls (line.now ++ 10 ∷ behind.now) result }
{
    let Some(last) = last_line_of(line) else {
        return Err(parts.bad_line());
    };
    if !parts.fits_last(&last) {
        return Err(parts.bad_line());
    }
    if !behind.is_empty() {
        return Err(TextFault::BadLine {
            line: parts.count + 2,
        });
    }
    Ok(parts.into_report(alloc, last)?)
}
