//! Which invocations wait for which, as rows.

use mate_files::Sink;
use mate_journal::Entry;
use mate_num::CONTEXTS_MAX;
use report_line_reader::{Line, Told};
use std::alloc::Global;
use std::io::Read;
use view_records::locks::write_shared;
use view_records::words::handler_name;
use view_records::{
    Cell, Form, Ink, Live, Nodes, Source, Stretch, StretchEnd, ViewFault, write_head, write_row,
};
use vm_shape::Description;

const COLUMNS: [&str; 14] = [
    "node",
    "invocation",
    "handler",
    "context",
    "holder",
    "holder_handler",
    "holder_context",
    "resources",
    "since_event",
    "since_time",
    "until_event",
    "until_time",
    "wait",
    "end",
];

/// An invocation that waits to start, and an older one whose locks it has to wait for.
#[derive(Clone, Copy)]
struct Wait {
    node: u8,
    waiter: Live,
    holder: Live,
}

/// Writes a row for each invocation that an invocation has to wait for before it starts, when that ends: as the holder
/// ends, or as an install or a reset cuts both, or at the report's end.
pub fn write_waits<R: Read, S: Sink>(
    alloc: Global,
    desc: &Description,
    form: Form,
    source: &mut Source<R>,
    sink: &mut S,
) -> Result<(), ViewFault> {
    let mut nodes = Nodes::new(alloc)?;
    let mut ended = Vec::new(alloc);
    let mut waits = Vec::new(alloc);
    let (mut ink, mut names) = (Ink::new(alloc), Ink::new(alloc));
    write_head(form, &COLUMNS, &mut ink);
    ink.flush(sink)?;
    for _ in 0..u64::MAX {
        let Some(line) = source.next(desc)? else {
            break;
        };
        nodes.follow(desc, &line, &mut ended)?;
        write_ended(
            desc,
            form,
            ended.as_slice(),
            &mut waits,
            &mut names,
            &mut ink,
        );
        ink.flush(sink)?;
        ended.clear();
        begin_waits(&nodes, &line, &mut waits)?;
    }
    nodes.finish(StretchEnd::Open, &mut ended)?;
    write_ended(
        desc,
        form,
        ended.as_slice(),
        &mut waits,
        &mut names,
        &mut ink,
    );
    ink.flush(sink)
}

/// A post may begin waits: for each live invocation of the node whose locks conflict with those of the new one.
fn begin_waits(nodes: &Nodes, line: &Line, waits: &mut Vec<Wait>) -> Result<(), ViewFault> {
    let Told::Made(
        Entry::Post {
            inv,
            handler: _,
            ctx: _,
            payload: _,
        },
    ) = &line.told
    else {
        return Ok(());
    };
    let Some(waiter) = nodes.live(line.node, *inv) else {
        return Ok(());
    };
    for context in 0..CONTEXTS_MAX as u8 {
        if let Some(holder) = nodes.in_context(line.node, context) {
            if holder.inv != waiter.inv && !holder.locks.compatible(&waiter.locks) {
                waits.push(Wait {
                    node: line.node,
                    waiter,
                    holder,
                })?;
            }
        }
    }
    Ok(())
}

/// Writes the waits that end with some stretches, and forgets them. `names` is room for the names of resources.
fn write_ended(
    desc: &Description,
    form: Form,
    ended: &[Stretch],
    waits: &mut Vec<Wait>,
    names: &mut Ink,
    ink: &mut Ink,
) {
    if waits.is_empty() {
        return;
    }
    for stretch in ended {
        for wait in waits.as_slice() {
            if ends(stretch, wait) {
                names.clear();
                write_shared(desc, &wait.waiter.locks, &wait.holder.locks, names);
                write_wait(desc, form, wait, stretch, names.as_bytes(), ink);
            }
        }
        waits.retain(|wait| !ends(stretch, wait));
    }
}

/// Whether a wait ends with a stretch: the last one of the holder, or the waiter's own.
fn ends(stretch: &Stretch, wait: &Wait) -> bool {
    let inv = stretch.live.inv;
    let is_last = match stretch.end {
        StretchEnd::Next | StretchEnd::Answered(_) => false,
        StretchEnd::Halted
        | StretchEnd::Faulted(_)
        | StretchEnd::Cut
        | StretchEnd::Open
        | StretchEnd::Unseen => true,
    };
    stretch.node == wait.node && (inv == wait.waiter.inv || (inv == wait.holder.inv && is_last))
}

/// The row of a wait; `names` has the names of what the two share.
fn write_wait<'a>(
    desc: &'a Description,
    form: Form,
    wait: &Wait,
    stretch: &Stretch,
    names: &'a [u8],
    ink: &mut Ink,
) {
    let (waiter, holder) = (&wait.waiter, &wait.holder);
    let since = waiter.since;
    let end = match stretch.end {
        StretchEnd::Cut => "cut",
        StretchEnd::Open | StretchEnd::Unseen => "open",
        StretchEnd::Next | StretchEnd::Answered(_) | StretchEnd::Halted | StretchEnd::Faulted(_) =>
            "released",
    };
    let wait_ms = stretch.to.time.saturating_sub(since.time);
    let row = [
        Cell::Number(u64::from(wait.node)),
        Cell::Number(u64::from(waiter.inv)),
        Cell::Text(handler_name(desc, waiter.handler)),
        Cell::Number(u64::from(waiter.ctx.0)),
        Cell::Number(u64::from(holder.inv)),
        Cell::Text(handler_name(desc, holder.handler)),
        Cell::Number(u64::from(holder.ctx.0)),
        Cell::Bytes(names),
        Cell::Number(since.event),
        Cell::Number(u64::from(since.time)),
        Cell::Number(stretch.to.event),
        Cell::Number(u64::from(stretch.to.time)),
        Cell::Number(u64::from(wait_ms)),
        Cell::Text(end),
    ];
    write_row(form, &COLUMNS, &row, ink);
}
