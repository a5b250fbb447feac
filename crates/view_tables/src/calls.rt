//! The split-phase calls of a report as rows.

use mate_files::Sink;
use mate_num::FunId;
use std::alloc::Global;
use std::io::Read;
use view_records::words::{function_name, handler_name};
use view_records::{
    Cell, Form, Ink, Nodes, Phase, Source, Stretch, StretchEnd, ViewFault, write_head, write_row,
};
use vm_shape::Description;

const COLUMNS: [&str; 12] = [
    "node",
    "invocation",
    "handler",
    "context",
    "function",
    "asked_event",
    "asked_time",
    "ended_event",
    "ended_time",
    "wait",
    "end",
    "value",
];

/// Writes a row for each call, when it ends: by an answer, by an install or a reset that cuts it, or by the report's end.
pub fn write_calls<R: Read, S: Sink>(
    alloc: Global,
    desc: &Description,
    form: Form,
    source: &mut Source<R>,
    sink: &mut S,
) -> Result<(), ViewFault> {
    let mut nodes = Nodes::new(alloc)?;
    let mut ended = Vec::new(alloc);
    let mut ink = Ink::new(alloc);
    write_head(form, &COLUMNS, &mut ink);
    ink.flush(sink)?;
    for _ in 0..u64::MAX {
        let Some(line) = source.next(desc)? else {
            break;
        };
        nodes.follow(desc, &line, &mut ended)?;
        write_ended(desc, form, ended.as_slice(), &mut ink);
        ink.flush(sink)?;
        ended.clear();
    }
    nodes.finish(StretchEnd::Open, &mut ended)?;
    write_ended(desc, form, ended.as_slice(), &mut ink);
    ink.flush(sink)
}

/// The rows of the calls among some stretches.
fn write_ended(desc: &Description, form: Form, ended: &[Stretch], ink: &mut Ink) {
    for stretch in ended {
        if let Phase::Asking(fun) = stretch.live.phase {
            write_call(desc, form, fun, stretch, ink);
        }
    }
}

fn write_call(desc: &Description, form: Form, fun: FunId, stretch: &Stretch, ink: &mut Ink) {
    let live = &stretch.live;
    let (end, value) = match stretch.end {
        StretchEnd::Answered(value) => ("answered", Cell::Value(value)),
        StretchEnd::Open | StretchEnd::Unseen => ("open", Cell::Nothing),
        StretchEnd::Cut | StretchEnd::Next | StretchEnd::Halted | StretchEnd::Faulted(_) => (
            "cut",
            Cell::Nothing,
        ),
    };
    let row = [
        Cell::Number(u64::from(stretch.node)),
        Cell::Number(u64::from(live.inv)),
        Cell::Text(handler_name(desc, live.handler)),
        Cell::Number(u64::from(live.ctx.0)),
        Cell::Text(function_name(desc, fun)),
        Cell::Number(live.since.event),
        Cell::Number(u64::from(live.since.time)),
        Cell::Number(stretch.to.event),
        Cell::Number(u64::from(stretch.to.time)),
        Cell::Number(stretch.ms()),
        Cell::Text(end),
        value,
    ];
    write_row(form, &COLUMNS, &row, ink);
}
