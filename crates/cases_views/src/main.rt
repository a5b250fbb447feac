//! Cases of the words of `mate-view`: what they write, the line of a refusal, and the status.
#![tactic(auto)]

mod many;

use command_refusals::Status;
use many::{count_columns, count_marks, dense_report, long_report};
use mate_files::{MemSink, OsFiles, Sink};
use std::io::{Read, Write};
use std::rt::Files;
use std::{fs, io};
use view_cli::{Request, Stop, VERSION, Words, read, view};

/// The name of a file that isn't there, for the word `HOSTILE`: with control characters of one byte and of two.
const HOSTILE: &str = "no\u{1b}[31m\n\u{9b}2J\u{7f}\u{e9}";

fn main(rt: HostRuntime) -> io::Result<()> {
    let cases = fs::read_to_string(&rt, "cases")?;
    for case in cases.lines() {
        println!(rt; "== {case}")?;
        answer(&rt, case)?;
    }
    Ok(())
}

/// Prints what the words of a case write. After a first word `many` it is a report with many marks, and after `dense` one with many
/// packets, of which only some things are counted.
fn answer(rt: &(impl Files + Print + AllocGlobal), case: &str) -> io::Result<()> {
    let (many, dense) = (case.starts_with("many "), case.starts_with("dense "));
    let mut words = Vec::new(rt.alloc());
    for word in case.split(' ') {
        let word = if word == "HOSTILE" { HOSTILE } else { word };
        if word != "many" && word != "dense" {
            words.push(String::from_str(rt.alloc(), word)?)?;
        }
    }
    let mut err = MemSink::new(rt.alloc());
    let mut sink = MemSink::new(rt.alloc());
    let status = match read(rt.alloc(), &words) {
        Ok(Words::View(request)) if many || dense => {
            let report = if many {
                long_report(rt.alloc())
            } else {
                dense_report(rt.alloc())
            };
            written(rt, &request, report.bytes(), &mut sink, &mut err)
        }
        Ok(Words::View(request)) => opened(rt, &request, &mut sink, &mut err),
        Ok(Words::Version) => {
            println!(rt; "mate-view {VERSION}")?;
            Status::Ok
        }
        Err(refusal) => refusal.refuse(&mut err),
    };
    if many {
        count_marks(rt, sink.bytes())?;
    } else if dense {
        count_columns(rt, sink.bytes())?;
    } else {
        io::writer(rt).write_all(sink.bytes())?;
    }
    io::writer(rt).write_all(err.bytes())?;
    println!(rt; "status {}", status.code())
}

/// Makes the view of a report's file.
fn opened<T: Files + AllocGlobal, S: Sink, E: Sink>(
    rt: &T,
    request: &Request<'_>,
    sink: &mut S,
    err: &mut E,
) -> Status {
    match fs::open(rt, request.report) {
        Ok(report) => written(rt, request, report, sink, err),
        Err(_) => Stop::Unread.tell(rt.alloc(), request.report, request.machine, err),
    }
}

/// Makes the view of a report.
fn written<T: Files + AllocGlobal, R: Read + Drop, S: Sink, E: Sink>(
    rt: &T,
    request: &Request<'_>,
    report: R,
    sink: &mut S,
    err: &mut E,
) -> Status {
    let mut files = OsFiles::new(rt.alloc(), rt);
    match view(rt.alloc(), request, &mut files, report, sink) {
        Ok(()) => Status::Ok,
        Err(stop) => stop.tell(rt.alloc(), request.report, request.machine, err),
    }
}
