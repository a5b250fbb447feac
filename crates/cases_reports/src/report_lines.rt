//! Lines of reports: what is written for what a line says, so the same line, or `no line`.

use cases_files::in_one_line;
use mate_files::MemSink;
use mate_journal::{Aired, Entry, NodeLog, Stamped};
use mate_num::NoMemory;
use report_line_reader::{Line, Told, line_of};
use report_writer::write_event;
use std::alloc::{AllocError, Global};
use vm_shape::Description;

pub fn answer(alloc: Global, desc: &Description, case: &str) -> Result<String, AllocError> {
    let Some(line) = line_of(desc, case.as_bytes()) else {
        return "no line".to_string(alloc);
    };
    let mut sink = MemSink::new(alloc);
    if write_line(alloc, desc, line, &mut sink).is_err() {
        return "no text".to_string(alloc);
    }
    in_one_line(alloc, sink.bytes())
}

fn write_line(
    alloc: Global,
    desc: &Description,
    line: Line,
    out: &mut MemSink,
) -> Result<(), NoMemory> {
    let Line { stamp, node, told } = line;
    let mut log = NodeLog::new(alloc);
    log.reserve(1)?;
    let entry = match told {
        Told::OnAir(air) => {
            let air = [Aired { stamp, node, air }];
            return written(desc, &air, &log, node, out);
        }
        Told::Made(entry) => entry,
        Told::Installed {
            handler,
            version,
            image,
        } => Entry::Install {
            handler,
            version,
            image: log.add_image(&image),
        },
        Told::Shown(store) => Entry::Seen {
            store: log.add_store(&store),
        },
    };
    log.reserve(1)?;
    log.push(Stamped { stamp, entry });
    written(desc, &[], &log, node, out)
}

fn written(
    desc: &Description,
    air: &[Aired],
    log: &NodeLog,
    node: u8,
    out: &mut MemSink,
) -> Result<(), NoMemory> {
    match write_event(desc, air, log, 0, node, out) {
        Ok(()) => Ok(()),
        Err(_) => Err(NoMemory),
    }
}
