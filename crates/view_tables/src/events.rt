//! The records of a report as rows.

use crate::cells::Cells;
use mate_files::Sink;
use mate_num::{Name, Store};
use report_line_reader::Line;
use std::alloc::Global;
use std::io::Read;
use view_records::row::write_values;
use view_records::{Cell, Form, Ink, Nodes, Source, ViewFault, write_head, write_row};
use vm_shape::Description;

const COLUMNS: [&str; 18] = [
    "line",
    "event",
    "time",
    "node",
    "record",
    "invocation",
    "handler",
    "context",
    "function",
    "version",
    "cause",
    "packet",
    "other",
    "length",
    "values",
    "value",
    "store",
    "bytes",
];

/// Writes a row for each record, when it is read. A bad line ends the table after the rows of the lines before it.
pub fn write_events<R: Read, S: Sink>(
    alloc: Global,
    desc: &Description,
    form: Form,
    source: &mut Source<R>,
    sink: &mut S,
) -> Result<(), ViewFault> {
    let mut nodes = Nodes::new(alloc)?;
    let mut ended = Vec::new(alloc);
    let (mut ink, mut store) = (Ink::new(alloc), Ink::new(alloc));
    write_head(form, &COLUMNS, &mut ink);
    ink.flush(sink)?;
    for _ in 0..u64::MAX {
        let Some(line) = source.next(desc)? else {
            break;
        };
        let cells = Cells::of_line(desc, &nodes, &line);
        store.clear();
        if let Some(seen) = cells.store {
            write_store(desc, seen, &mut store);
        }
        let number = source.count();
        write_event(form, number, &line, &cells, store.as_bytes(), &mut ink);
        ink.flush(sink)?;
        nodes.follow(desc, &line, &mut ended)?;
        ended.clear();
    }
    Ok(())
}

/// The row of a line; `store` has the text of its store, if it has one.
fn write_event<'a>(
    form: Form,
    number: u64,
    line: &Line,
    cells: &Cells<'a>,
    store: &'a [u8],
    ink: &mut Ink,
) {
    let store = match cells.store {
        Some(_) => Cell::Bytes(store),
        None => Cell::Nothing,
    };
    let row = [
        Cell::Number(number),
        Cell::Number(line.stamp.event),
        Cell::Number(u64::from(line.stamp.time)),
        Cell::Number(u64::from(line.node)),
        Cell::Text(cells.record),
        cells.invocation,
        cells.handler,
        cells.context,
        cells.function,
        cells.version,
        cells.cause,
        cells.packet,
        cells.other,
        cells.length,
        cells.values,
        cells.value,
        store,
        cells.bytes,
    ];
    write_row(form, &COLUMNS, &row, ink);
}

/// A store as the report has it.
fn write_store(desc: &Description, store: &Store, ink: &mut Ink) {
    let mut begun = false;
    for (name, value) in desc.shared.as_slice().iter().zip(store.shared.as_slice()) {
        write_name(begun, name, ink);
        ink.text("=");
        ink.value(i32::from(*value));
        begun = true;
    }
    for (name, buffer) in desc.buffers.as_slice().iter().zip(store.buffers.as_slice()) {
        write_name(begun, name, ink);
        ink.text("=[");
        write_values(buffer.as_slice(), " ", ink);
        ink.text("]");
        begun = true;
    }
}

/// Writes a name behind those before it.
fn write_name(begun: bool, name: &Name, ink: &mut Ink) {
    ink.text(if begun { " " } else { "" });
    ink.text(name.as_str());
}
