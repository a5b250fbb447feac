//! Journals: what a node records, what happens on the air, and a report of both.

ghost use Rattle.std.specs.Prelude.{◌<◌, ◌≤◌, length};

use mate_journal::{
    Air, Aired, Airs, DropCause, Entry, NodeLog, NodeLogs, Program, Programs, Report, RunFault,
    Stamped, VoidCause,
};
use mate_num::{Image, NoMemory, Stamp, Store};
use std::alloc::Global;

/// The number of the invocation that an entry is of, if it is of one.
pub fn invocation_of(entry: &Entry) -> Option<u32> {
    match entry {
        Entry::Post {
            inv,
            handler: _,
            ctx: _,
            payload: _,
        } => Some(*inv),
        Entry::Start { inv } | Entry::Halt { inv } => Some(*inv),
        Entry::Ask {
            inv,
            fun: _,
            args: _,
        } => Some(*inv),
        Entry::Answer { inv, value: _ } | Entry::Fault { inv, kind: _ } => Some(*inv),
        Entry::Dropped { handler: _, cause } => dropped(*cause),
        Entry::Install {
            handler: _,
            version: _,
            image: _,
        } => None,
        Entry::Reset | Entry::Seen { store: _ } => None,
        Entry::Void { cause } => void(*cause),
    }
}

fn dropped(cause: DropCause) -> Option<u32> {
    match cause {
        DropCause::NoCode | DropCause::AllBusy => None,
    }
}

fn void(cause: VoidCause) -> Option<u32> {
    match cause {
        VoidCause::NotReady | VoidCause::NotWaiting => None,
        VoidCause::NotNewer { held } => Some(held),
    }
}

/// The number of the packet that a happening on the air is of, if it is of one.
pub fn packet_of(aired: &Aired) -> Option<u32> {
    let _when: Stamp = aired.stamp;
    let _node: u8 = aired.node;
    match &aired.air {
        Air::Sent { number, bytes: _ } => Some(*number),
        Air::Lost { number, to: _ } | Air::Got { number, from: _ } => Some(*number),
        Air::Interval { length: _ } | Air::Keep => None,
        Air::Noise { bytes: _ } => None,
    }
}

/// A log with one entry, an image and a store.
pub fn a_log(
    alloc: Global,
    stamp: Stamp,
    image: &Image,
    store: &Store,
) -> Result<NodeLog, NoMemory> {
    let mut log = NodeLog::new(alloc);
    log.reserve(3)?;
    if log.spare() < 3 {
        return Ok(log);
    }
    log.push(Stamped {
        stamp,
        entry: Entry::Reset,
    });
    let _image: u32 = log.add_image(image);
    let _store: u32 = log.add_store(store);
    let _entries: &[Stamped] = log.entries();
    let _images: &[Image] = log.images();
    let _stores: &[Store] = log.stores();
    log.cut(1, 1, 0);
    Ok(log)
}

/// A report of one node with this log and nothing on the air: how many nodes it has, and happenings.
pub fn a_report(alloc: Global, log: NodeLog) -> Result<(usize, usize, u64, bool), NoMemory> {
    let mut logs = NodeLogs::empty(alloc, 1)?;
    if logs.len() == 1 {
        logs.put(0, log);
    }
    let mut air = Airs::new(alloc);
    air.push(Aired {
        stamp: Stamp { event: 1, time: 0 },
        node: 0,
        air: Air::Keep,
    })?;
    air.cut(1);
    let report = Report::new(logs, air, 1, true);
    let nodes: &[NodeLog] = report.nodes();
    let air: &[Aired] = report.air();
    Ok((nodes.len(), air.len(), report.events(), report.whole()))
}

/// How many programs a list has whose source is known.
pub fn compiled_among(programs: &Programs) -> usize {
    let mut count = 0usize;
    for program in programs.as_slice() {
        let program: &Program = program;
        if program.source.is_some() {
            count = count.saturating_add(1);
        }
    }
    count
}

/// What a run that its log ended recorded.
pub fn recorded(fault: RunFault) -> Option<Report> {
    match fault {
        RunFault::LogFull(report) => Some(report),
        RunFault::NoMemory => None,
    }
}
