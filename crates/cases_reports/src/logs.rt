//! Logs and reports that are built by hand: `log` is one before and after it is cut, and `report` is one of three nodes.

use cases_files::zero_store;
use mate_journal::{Air, Aired, Airs, Entry, NodeLog, NodeLogs, Report, Stamped};
use mate_num::{ContextId, HandlerId, Image, NoMemory, Payload, Stamp};
use std::alloc::{AllocError, Global};

const STAMP: Stamp = Stamp { event: 1, time: 5 };

pub fn answer(alloc: Global, case: &str) -> Result<String, AllocError> {
    if case == "report" {
        return match report(alloc) {
            Ok(report) => parts(alloc, &report),
            Err(fault) => fault.to_string(alloc),
        };
    }
    let mut log = match log(alloc) {
        Ok(log) => log,
        Err(fault) => return fault.to_string(alloc),
    };
    let whole = lengths(alloc, &log)?;
    log.cut(1, 0, 1);
    let cut = lengths(alloc, &log)?;
    match log.entries() {
        [
            Stamped {
                stamp: Stamp { event, time },
                entry: Entry::Seen { store },
            },
        ] => {
            let stamp = format!(in alloc; "Stamp {{ event: {event}, time: {time} }}")?;
            let entry = format!(in alloc; "Seen {{ store: {store} }}")?;
            format!(in alloc; "{whole}, {cut} [Stamped {{ stamp: {stamp}, entry: {entry} }}]")
        }
        _ => format!(in alloc; "{whole}, {cut} other entries"),
    }
}

fn lengths(alloc: Global, log: &NodeLog) -> Result<String, AllocError> {
    format!(in alloc;
        "{} {} {}",
        log.entries().len(),
        log.images().len(),
        log.stores().len()
    )
}

fn log(alloc: Global) -> Result<NodeLog, NoMemory> {
    let mut log = NodeLog::new(alloc);
    log.reserve(8)?;
    let store = log.add_store(&zero_store(2, 1));
    log.reserve(8)?;
    log.add_store(&zero_store(1, 0));
    log.reserve(8)?;
    log.add_image(&Image::new());
    log.reserve(8)?;
    log.push(Stamped {
        stamp: STAMP,
        entry: Entry::Seen { store },
    });
    log.reserve(8)?;
    log.push(Stamped {
        stamp: STAMP,
        entry: Entry::Post {
            inv: 1,
            handler: HandlerId(0),
            ctx: ContextId(0),
            payload: Payload::new(),
        },
    });
    Ok(log)
}

fn report(alloc: Global) -> Result<Report, NoMemory> {
    let mut nodes = NodeLogs::empty(alloc, 2)?;
    nodes.put(1, log(alloc)?);
    nodes.push(NodeLog::new(alloc))?;
    let mut air = Airs::new(alloc);
    air.push(Aired {
        stamp: STAMP,
        node: 1,
        air: Air::Keep,
    })?;
    Ok(Report::new(nodes, air, 7, true))
}

fn parts(alloc: Global, report: &Report) -> Result<String, AllocError> {
    let nodes = report.nodes();
    let second = nodes.get(1).map_or(0, |log| log.entries().len());
    format!(in alloc;
        "{} {second} {} {} {}",
        nodes.len(),
        report.air().len(),
        report.events(),
        report.whole()
    )
}
