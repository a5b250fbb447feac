//! The program `mate-view`: pictures and tables of the reports that `mate` writes.
#![tactic(auto)]

use command_refusals::{Refusal, Status, words};
use mate_files::{OsFiles, OsSink, Sink};
use std::io::{BufWriter, Read, Write};
use std::process::ExitCode;
use std::rt::Files;
use std::{fs, io};
use view_cli::{Request, Stop, VERSION, Words, read, view};

/// How many bytes are written to standard output at once.
const OUT_BLOCK: usize = 65_536;

fn main(rt: HostRuntime) -> ExitCode {
    let mut err = OsSink::new(rt.stderr());
    let status = match words(&rt) {
        Ok(words) => match read(rt.alloc(), &words) {
            Ok(Words::View(request)) => run(&rt, &request, &mut err),
            Ok(Words::Version) => tell_version(&rt, &mut err),
            Err(refusal) => refusal.refuse(&mut err),
        },
        Err(refusal) => refusal.refuse(&mut err),
    };
    ExitCode::from(status.code())
}

/// Writes the name of the program and its version.
fn tell_version<E: Sink>(rt: &impl Print, err: &mut E) -> Status {
    match println!(rt; "mate-view {VERSION}") {
        Ok(()) => Status::Ok,
        Err(_) => Refusal::SinkFault.refuse(err),
    }
}

/// Opens the report, and makes the view of it.
fn run<E: Sink>(
    rt: &(impl Files + Input + Print + AllocGlobal),
    request: &Request<'_>,
    err: &mut E,
) -> Status {
    if request.report == "-" {
        return written(rt, request, rt.reader(), err);
    }
    match fs::open(rt, request.report) {
        Ok(file) => written(rt, request, file, err),
        Err(_) => Stop::Unread.tell(rt.alloc(), request.report, request.machine, err),
    }
}

/// Writes the view to standard output.
fn written<T: Files + Print + AllocGlobal, R: Read + Drop, E: Sink>(
    rt: &T,
    request: &Request<'_>,
    reader: R,
    err: &mut E,
) -> Status {
    let Ok(writer) = BufWriter::with_capacity(rt.alloc(), OUT_BLOCK, io::writer(rt)) else {
        return Refusal::NoMemory.refuse(err);
    };
    let mut files = OsFiles::new(rt.alloc(), rt);
    let mut sink = OsSink::new(writer);
    let made = view(rt.alloc(), request, &mut files, reader, &mut sink);
    let mut writer = sink.into_inner();
    let flushed = writer.flush().is_ok();
    match made {
        Ok(()) if flushed => Status::Ok,
        Ok(()) => Refusal::SinkFault.refuse(err),
        Err(stop) => stop.tell(rt.alloc(), request.report, request.machine, err),
    }
}
