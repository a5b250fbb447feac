//! Whether two reports say the same.

use mate_files::{MemSink, SinkFault};
use mate_journal::{Aired, NodeLog, Report};
use mate_num::{Image, Store};
use report_writer::write_event;
use std::alloc::Global;
use vm_shape::Description;

/// Whether two reports say the same. The answer is no if memory for a text runs out.
pub fn are_same(alloc: Global, desc: &Description, a: &Report, b: &Report) -> bool {
    if a.events() != b.events() || a.whole() != b.whole() || a.nodes().len() != b.nodes().len() {
        return false;
    }
    for (node, log) in a.nodes().iter().enumerate() {
        match b.nodes().get(node) {
            Some(other) if are_same_logs(alloc, desc, log, other) => {}
            _ => return false,
        }
    }
    let none = NodeLog::new(alloc);
    are_same_lines(
        lines(alloc, desc, a.air(), &none),
        lines(alloc, desc, b.air(), &none),
    )
}

fn are_same_logs(alloc: Global, desc: &Description, a: &NodeLog, b: &NodeLog) -> bool {
    are_same_images(a.images(), b.images())
        && are_same_stores(a.stores(), b.stores())
        && are_same_lines(lines(alloc, desc, &[], a), lines(alloc, desc, &[], b))
}

fn are_same_images(a: &[Image], b: &[Image]) -> bool {
    if a.len() != b.len() {
        return false;
    }
    for (one, other) in a.iter().zip(b) {
        if one.as_slice() != other.as_slice() {
            return false;
        }
    }
    true
}

fn are_same_stores(a: &[Store], b: &[Store]) -> bool {
    if a.len() != b.len() {
        return false;
    }
    for (one, other) in a.iter().zip(b) {
        if !are_same_values(one, other) {
            return false;
        }
    }
    true
}

fn are_same_values(a: &Store, b: &Store) -> bool {
    if a.shared.as_slice() != b.shared.as_slice() || a.buffers.len() != b.buffers.len() {
        return false;
    }
    for (one, other) in a.buffers.as_slice().iter().zip(b.buffers.as_slice()) {
        if one.as_slice() != other.as_slice() {
            return false;
        }
    }
    true
}

// The lines of what happened on the air and of a log's entries, each as if of node 0.
fn lines(
    alloc: Global,
    desc: &Description,
    air: &[Aired],
    log: &NodeLog,
) -> Result<MemSink, SinkFault> {
    let mut sink = MemSink::new(alloc);
    write_event(desc, air, log, 0, 0, &mut sink)?;
    Ok(sink)
}

fn are_same_lines(a: Result<MemSink, SinkFault>, b: Result<MemSink, SinkFault>) -> bool {
    match (a, b) {
        (Ok(a), Ok(b)) => a.bytes() == b.bytes(),
        _ => false,
    }
}
