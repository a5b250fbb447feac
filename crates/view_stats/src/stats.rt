//! The sums of a report as tables.

use crate::sums::{
    FUNCTION_COLUMNS, Grid, HANDLER_COLUMNS, NODE_COLUMNS, PACKET_COLUMNS, Sums, link_place,
};
use crate::table::{Heads, Label, Table};
use mate_files::Sink;
use mate_num::{FunId, HandlerId, NODES_MAX};
use report_text::last_line::LastLine;
use std::alloc::Global;
use std::io::Read;
use view_records::Fill::{Number, Text};
use view_records::words::{function_name, handler_name};
use view_records::{Ink, Nodes, PACKET_KINDS, Source, Stretch, StretchEnd, ViewFault, Window};
use vm_shape::Description;

const LINK_COLUMNS: [&str; 4] = ["to", "got", "lost", "lost_of_1000"];

/// Writes how long the run was, and the tables of nodes, packets, links, handlers, functions and updates: as columns to
/// read, or as objects of JSON, one a row. Counted are the records of the window, and waits and calls that end there.
/// Nothing is written for a report with a bad line.
pub fn write_stats<R: Read, S: Sink>(
    alloc: Global,
    desc: &Description,
    json: bool,
    window: &Window,
    source: &mut Source<R>,
    sink: &mut S,
) -> Result<(), ViewFault> {
    let mut nodes = Nodes::new(alloc)?;
    let mut sums = Sums::new(alloc)?;
    let mut ended = Vec::new(alloc);
    for _ in 0..u64::MAX {
        let Some(line) = source.next(desc)? else {
            break;
        };
        sums.pass_line(&line)?;
        if window.has(line.stamp) {
            sums.count_line(&line)?;
        }
        nodes.follow(desc, &line, &mut ended)?;
        count_ended(window, ended.as_slice(), &mut sums);
        ended.clear();
    }
    nodes.finish(StretchEnd::Open, &mut ended)?;
    count_ended(window, ended.as_slice(), &mut sums);
    let mut ink = Ink::new(alloc);
    if let Some(last) = source.last() {
        let run = Run {
            last,
            until: nodes.now.time,
            window: *window,
            counted: sums.records,
        };
        write_run(json, &run, &mut ink);
        write_tables(alloc, desc, json, last.nodes, &sums, &mut ink)?;
    }
    ink.flush(sink)
}

/// Counts the stretches that ended in the window.
fn count_ended(window: &Window, ended: &[Stretch], sums: &mut Sums) {
    for stretch in ended {
        if window.has(stretch.to) {
            sums.count_stretch(stretch);
        }
    }
}

/// What a report says of its run as a whole, and what is counted of it.
#[derive(Clone, Copy)]
struct Run {
    last: LastLine,
    /// The time of the last record, in ms.
    until: u32,
    window: Window,
    counted: u64,
}

fn write_run(json: bool, run: &Run, ink: &mut Ink) {
    let end = if run.last.whole { "whole" } else { "full" };
    if json {
        ink.line(
            "{\"table\":\"run\",\"end\":\"{}\",\"nodes\":{},\"records\":{},\"counted\":{},\"events\":{},\"time\":{}}\n",
            &[
                Text(end),
                Number(run.last.nodes),
                Number(run.last.records),
                Number(run.counted),
                Number(run.last.events),
                Number(u64::from(run.until)),
            ],
        );
        return;
    }
    ink.line(
        "{} report: {}{}{} records up to event {}, the last at {} ms\n",
        &[
            Text(end),
            Number(run.last.nodes),
            Text(if run.last.nodes == 1 {
                " node, "
            } else {
                " nodes, "
            }),
            Number(run.last.records),
            Number(run.last.events),
            Number(u64::from(run.until)),
        ],
    );
    if run.counted != run.last.records {
        write_counted(run, ink);
    }
}

/// Says what part is counted.
fn write_counted(run: &Run, ink: &mut Ink) {
    let (before, unit) = if run.window.by_events {
        ("event ", "\n")
    } else {
        ("", " ms\n")
    };
    ink.line(
        "counted: {} of them, from {}{}",
        &[Number(run.counted), Text(before), Number(run.window.from)],
    );
    if run.window.to < u64::MAX {
        ink.line(" to {}", &[Number(run.window.to)]);
    }
    ink.text(unit);
}

fn write_tables(
    alloc: Global,
    desc: &Description,
    json: bool,
    count: u64,
    sums: &Sums,
    ink: &mut Ink,
) -> Result<(), ViewFault> {
    node_table(alloc, count, &sums.nodes)?.write(json, ink);
    packet_table(alloc, &sums.packets)?.write(json, ink);
    link_table(alloc, &sums.links)?.write(json, ink);
    handler_table(alloc, desc, &sums.handlers)?.write(json, ink);
    if !desc.functions.is_empty() {
        function_table(alloc, desc, &sums.functions)?.write(json, ink);
    }
    sums.updates.table(alloc, desc)?.write(json, ink);
    Ok(())
}

fn node_table<'a>(alloc: Global, count: u64, grid: &Grid) -> Result<Table<'a>, ViewFault> {
    let heads = Heads {
        table: "node",
        first: "node",
        columns: &NODE_COLUMNS,
    };
    let mut table = Table::new(alloc, heads);
    for node in 0..NODES_MAX {
        if (node as u64) < count {
            table.add(Label::Number(node as u64), grid.row(node))?;
        }
    }
    Ok(table)
}

/// The kinds of packets that were sent.
fn packet_table<'a>(alloc: Global, grid: &Grid) -> Result<Table<'a>, ViewFault> {
    let heads = Heads {
        table: "packet",
        first: "packet",
        columns: &PACKET_COLUMNS,
    };
    let mut table = Table::new(alloc, heads);
    let mut place = 0usize;
    for kind in &PACKET_KINDS {
        if let [sent, _, got, lost] = grid.row(place) {
            if *sent > 0 || *got > 0 || *lost > 0 {
                table.add(Label::Name(*kind), grid.row(place))?;
            }
        }
        place = place.saturating_add(1);
    }
    Ok(table)
}

/// The links on which packets came or were lost.
fn link_table<'a>(alloc: Global, grid: &Grid) -> Result<Table<'a>, ViewFault> {
    let heads = Heads {
        table: "link",
        first: "from",
        columns: &LINK_COLUMNS,
    };
    let mut table = Table::new(alloc, heads);
    for from in 0..NODES_MAX as u8 {
        for to in 0..NODES_MAX as u8 {
            if let [got, lost] = grid.row(link_place(from, to)) {
                let both = got.saturating_add(*lost);
                if both > 0 {
                    let share = lost.saturating_mul(1000) / both;
                    let cells = [u64::from(to), *got, *lost, share];
                    table.add(Label::Number(u64::from(from)), &cells)?;
                }
            }
        }
    }
    Ok(table)
}

fn handler_table<'a>(
    alloc: Global,
    desc: &'a Description,
    grid: &Grid,
) -> Result<Table<'a>, ViewFault> {
    let heads = Heads {
        table: "handler",
        first: "handler",
        columns: &HANDLER_COLUMNS,
    };
    let mut table = Table::new(alloc, heads);
    let mut number = 0u8;
    for _handler in desc.handlers.as_slice() {
        let name = handler_name(desc, HandlerId(number));
        table.add(Label::Name(name), grid.row(usize::from(number)))?;
        number = number.saturating_add(1);
    }
    Ok(table)
}

fn function_table<'a>(
    alloc: Global,
    desc: &'a Description,
    grid: &Grid,
) -> Result<Table<'a>, ViewFault> {
    let heads = Heads {
        table: "function",
        first: "function",
        columns: &FUNCTION_COLUMNS,
    };
    let mut table = Table::new(alloc, heads);
    let mut number = 0u8;
    for _function in desc.functions.as_slice() {
        let name = function_name(desc, FunId(number));
        table.add(Label::Name(name), grid.row(usize::from(number)))?;
        number = number.saturating_add(1);
    }
    Ok(table)
}
