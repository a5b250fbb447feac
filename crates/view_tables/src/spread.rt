//! How versions spread, as rows.

use mate_files::Sink;
use report_line_reader::Told;
use std::alloc::Global;
use std::io::Read;
use view_records::words::handler_name;
use view_records::{Cell, Form, Ink, Nodes, Source, ViewFault, write_head, write_row};
use vm_shape::Description;

const COLUMNS: [&str; 8] = [
    "event", "time", "node", "handler", "version", "newest", "holders", "nodes",
];

/// Writes a row for each install: the newest version of the handler that any node holds by then, how many nodes hold
/// it, and how many nodes the report has named so far.
pub fn write_spread<R: Read, S: Sink>(
    alloc: Global,
    desc: &Description,
    form: Form,
    source: &mut Source<R>,
    sink: &mut S,
) -> Result<(), ViewFault> {
    let mut nodes = Nodes::new(alloc)?;
    let mut ended = Vec::new(alloc);
    let mut ink = Ink::new(alloc);
    write_head(form, &COLUMNS, &mut ink);
    ink.flush(sink)?;
    for _ in 0..u64::MAX {
        let Some(line) = source.next(desc)? else {
            break;
        };
        nodes.follow(desc, &line, &mut ended)?;
        ended.clear();
        if let Told::Installed {
            handler,
            version,
            image: _,
        } = &line.told
        {
            let newest = nodes.newest(handler.0);
            let row = [
                Cell::Number(line.stamp.event),
                Cell::Number(u64::from(line.stamp.time)),
                Cell::Number(u64::from(line.node)),
                Cell::Text(handler_name(desc, *handler)),
                Cell::Number(u64::from(*version)),
                Cell::Number(u64::from(newest)),
                Cell::Number(nodes.holders(handler.0, newest)),
                Cell::Number(source.nodes()),
            ];
            write_row(form, &COLUMNS, &row, &mut ink);
            ink.flush(sink)?;
        }
    }
    Ok(())
}
