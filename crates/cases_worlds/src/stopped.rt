//! Runs whose sink fails or runs out of memory, and the report that is handed out then.

ghost use Rattle.std.specs.Prelude.{◌≤◌};
ghost use Rattle.node_programs.specs.WorldPrograms.{AreProgramsOfWorld};

use crate::same::are_same;
use crate::scarce::ScarceSink;
use mate_files::{FILE_MAX, MemSink};
use mate_journal::{IntoFault, Report, StoredPrograms};
use report_text::read;
use script_steps::World;
use std::alloc::{AllocError, Global};
use vm_shape::Description;
use world_sim::run_stored_into;

/// The most writes of a run.
const WRITES_MAX: u64 = 100_000;

/// How a run ended whose sink refused one write.
#[derive(Clone, Copy)]
enum Stop {
    /// It wrote everything before that write.
    Unstopped,
    /// It handed out the report of the events that ended, and had written the beginning of its text.
    Rightly,
    Wrongly,
}

impl Stop {
    /// Whether the text that was written is the beginning of the whole, and the report that of the events that ended.
    fn by(
        alloc: Global,
        desc: &Description,
        text: &str,
        written: &[u8],
        report: &Report,
    ) -> Result<Stop, AllocError> {
        let wanted = wanted_text(alloc, text, written.len())?;
        if text.as_bytes().starts_with(written) && is_of(alloc, desc, report, &wanted) {
            Ok(Stop::Rightly)
        } else {
            Ok(Stop::Wrongly)
        }
    }
}

/// Whether a run hands out the report that it should, at whichever write the sink fails or runs out of memory, by the
/// text of the whole run.
pub(crate) fn stopped(
    alloc: Global,
    desc: &Description,
    world: &World,
    programs: &StoredPrograms,
    text: &str,
) -> Result<String, AllocError>
    requires { AreProgramsOfWorld desc.now world.now programs.now }
{
    for call in 1..WRITES_MAX {
        let failed = failed_at(alloc, desc, world, programs, text, call)?;
        let refused = refused_at(alloc, desc, world, programs, text, call)?;
        match (failed, refused) {
            (Stop::Rightly, Stop::Rightly) => {}
            (Stop::Unstopped, Stop::Unstopped) => {
                return "stopped at each write as wanted".to_string(alloc);
            }
            _ => return format!(in alloc; "stopped otherwise at write {call}"),
        }
    }
    "too long".to_string(alloc)
}

/// How the run ends whose sink fails at this write.
fn failed_at(
    alloc: Global,
    desc: &Description,
    world: &World,
    programs: &StoredPrograms,
    text: &str,
    call: u64,
) -> Result<Stop, AllocError>
    requires { AreProgramsOfWorld desc.now world.now programs.now }
{
    let mut sink = MemSink::new(alloc);
    let _ = sink.fail_at(call);
    match run_stored_into(alloc, desc, world, programs, &mut sink) {
        Ok(_) if sink.bytes() == text.as_bytes() => Ok(Stop::Unstopped),
        Err(IntoFault::Sink(report)) => Stop::by(alloc, desc, text, sink.bytes(), &report),
        _ => Ok(Stop::Wrongly),
    }
}

/// How the run ends whose sink runs out of memory from this write on.
fn refused_at(
    alloc: Global,
    desc: &Description,
    world: &World,
    programs: &StoredPrograms,
    text: &str,
    call: u64,
) -> Result<Stop, AllocError>
    requires programs { AreProgramsOfWorld desc.now world.now programs.now }
    requires first { 1 ≤ call }
{
    let mut sink = ScarceSink::new(alloc, call - 1);
    match run_stored_into(alloc, desc, world, programs, &mut sink) {
        Ok(_) if sink.bytes() == text.as_bytes() => Ok(Stop::Unstopped),
        Err(IntoFault::NoMemory(report)) => Stop::by(alloc, desc, text, sink.bytes(), &report),
        _ => Ok(Stop::Wrongly),
    }
}

/// Whether the report is the one of this text.
fn is_of(alloc: Global, desc: &Description, report: &Report, text: &str) -> bool {
    if text.len() > FILE_MAX {
        return false;
    }
    match read(alloc, desc, text.as_bytes()) {
        Ok(wanted) => are_same(alloc, desc, report, &wanted),
        Err(_) => false,
    }
}

/// The text of the report that is handed out after `written` bytes. The next line that was to be written is of the
/// last event that ended; the report has all that this event and those before it recorded. After the events it is the
/// whole report.
fn wanted_text(alloc: Global, text: &str, written: usize) -> Result<String, AllocError> {
    let (events, nodes) = counts(text);
    match event_of(line_at(text, written)) {
        Some(event) if event <= events => cut(alloc, text, event, nodes),
        _ => text.to_string(alloc),
    }
}

/// The lines of the events up to `last`, and the last line of a report that isn't whole.
fn cut(alloc: Global, text: &str, last: u64, nodes: u64) -> Result<String, AllocError> {
    let mut lines = String::new(alloc);
    let mut records: u64 = 0;
    for line in text.lines() {
        if event_of(line).is_some_and(|event| event <= last) {
            lines = format!(in alloc; "{lines}{line}\n")?;
            records = records.saturating_add(1);
        }
    }
    format!(in alloc; "{lines}full {records} {last} {nodes}\n")
}

/// The line that the byte at a place of the text is in.
fn line_at(text: &str, place: usize) -> &str {
    let mut end: usize = 0;
    for line in text.lines() {
        end = end.saturating_add(line.len()).saturating_add(1);
        if end > place {
            return line;
        }
    }
    ""
}

/// The event that a line is of; None for the last line.
fn event_of(line: &str) -> Option<u64> {
    line.split(' ').next()?.parse::<u64>().ok()
}

/// The events and the nodes of a text's last line.
fn counts(text: &str) -> (u64, u64) {
    let last = text.lines().last().unwrap_or("");
    let mut numbers = last
        .split(' ')
        .filter_map(|word| word.parse::<u64>().ok())
        .skip(1);
    (numbers.next().unwrap_or(0), numbers.next().unwrap_or(0))
}
