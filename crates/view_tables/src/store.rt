//! What variables and buffers hold over time, as rows.

use mate_files::Sink;
use mate_num::{Name, Payload, Stamp, Store};
use report_line_reader::Told;
use std::alloc::Global;
use std::io::Read;
use view_records::stores::{Seen, same_values};
use view_records::{Cell, Form, Ink, Source, ViewFault, write_head, write_row};
use vm_shape::Description;

const COLUMNS: [&str; 6] = ["event", "time", "node", "name", "value", "values"];

/// When and on which node a store was seen.
#[derive(Clone, Copy)]
struct Sight {
    stamp: Stamp,
    node: u8,
}

/// Writes a row for each variable and buffer of a store that is seen, if the node's store wasn't seen before or had
/// another value there.
pub fn write_store_changes<R: Read, S: Sink>(
    alloc: Global,
    desc: &Description,
    form: Form,
    source: &mut Source<R>,
    sink: &mut S,
) -> Result<(), ViewFault> {
    let mut seen = Seen::new(alloc)?;
    let mut ink = Ink::new(alloc);
    write_head(form, &COLUMNS, &mut ink);
    ink.flush(sink)?;
    for _ in 0..u64::MAX {
        let Some(line) = source.next(desc)? else {
            break;
        };
        if let Told::Shown(store) = &line.told {
            let sight = Sight {
                stamp: line.stamp,
                node: line.node,
            };
            let before = seen.before(line.node);
            write_shared(desc, form, &sight, before, store, &mut ink);
            write_buffers(desc, form, &sight, before, store, &mut ink);
            ink.flush(sink)?;
            seen.take(line.node, store);
        }
    }
    Ok(())
}

fn write_shared(
    desc: &Description,
    form: Form,
    sight: &Sight,
    before: Option<&Store>,
    store: &Store,
    ink: &mut Ink,
) {
    let mut place = 0usize;
    for (name, value) in desc.shared.as_slice().iter().zip(store.shared.as_slice()) {
        let old = match before {
            Some(before) => before.shared.as_slice().get(place),
            None => None,
        };
        let same = match old {
            Some(old) => *old == *value,
            None => false,
        };
        if !same {
            write_thing(form, sight, name, Cell::Value(*value), Cell::Nothing, ink);
        }
        place = place.saturating_add(1);
    }
}

fn write_buffers(
    desc: &Description,
    form: Form,
    sight: &Sight,
    before: Option<&Store>,
    store: &Store,
    ink: &mut Ink,
) {
    let mut place = 0usize;
    for (name, values) in desc.buffers.as_slice().iter().zip(store.buffers.as_slice()) {
        let old = match before {
            Some(before) => before.buffers.as_slice().get(place),
            None => None,
        };
        if !is_same(old, values) {
            let list = Cell::List(values.as_slice());
            write_thing(form, sight, name, Cell::Nothing, list, ink);
        }
        place = place.saturating_add(1);
    }
}

/// Whether a buffer was seen before with these values.
fn is_same(old: Option<&Payload>, values: &Payload) -> bool {
    match old {
        Some(old) => same_values(old.as_slice(), values.as_slice()),
        None => false,
    }
}

fn write_thing<'a>(
    form: Form,
    sight: &Sight,
    name: &'a Name,
    value: Cell<'a>,
    values: Cell<'a>,
    ink: &mut Ink,
) {
    let row = [
        Cell::Number(sight.stamp.event),
        Cell::Number(u64::from(sight.stamp.time)),
        Cell::Number(u64::from(sight.node)),
        Cell::Text(name.as_str()),
        value,
        values,
    ];
    write_row(form, &COLUMNS, &row, ink);
}
