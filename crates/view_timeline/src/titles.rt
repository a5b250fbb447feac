//! The titles of a timeline's marks, which a browser shows under the pointer.

use crate::contents::write_contents;
use crate::marks::{Mark, What};
use mate_num::Stamp;
use report_writer::words::{drop_word, fault_word};
use view_records::Fill::{Number, Text};
use view_records::locks::write_shared;
use view_records::words::{function_name, handler_name};
use view_records::{Ink, Live, PacketKind, Phase, Stretch, StretchEnd};
use view_svg::svg::write_when;
use vm_shape::Description;

/// Writes the title of a mark, and the end of its element.
pub fn end_mark(desc: &Description, mark: &Mark, element: &str, ink: &mut Ink) {
    ink.text("><title>node ");
    ink.number(u64::from(mark.node));
    write_what(desc, &mark.what, ink);
    let to = match mark.what {
        What::Interval { .. } => mark.from,
        _ => mark.to,
    };
    write_when(mark.from, to, ink);
    ink.line("</title></{}>\n", &[Text(element)]);
}

fn write_what(desc: &Description, what: &What, ink: &mut Ink) {
    match what {
        What::Stretch(stretch) => write_stretch(desc, stretch, ink),
        What::Installed { handler, version } => ink.line(
            ": version {} of {} is installed",
            &[
                Number(u64::from(*version)),
                Text(handler_name(desc, *handler)),
            ],
        ),
        What::Dropped { handler, cause } => ink.line(
            ": a post for {} is dropped, {}",
            &[Text(handler_name(desc, *handler)), Text(drop_word(*cause))],
        ),
        What::Reset => ink.text(": reset"),
        What::Sent {
            number,
            bytes,
            heard,
        } => {
            let unheard = if *heard { "" } else { ", which no node hears" };
            ink.line(
                " sends packet {}{}, of ",
                &[Number(u64::from(*number)), Text(unheard)],
            );
            write_size(bytes.as_slice().len(), ink);
            write_contents(desc, bytes.as_slice(), ink);
        }
        What::Came { number, kind, to } => {
            write_packet(*number, *kind, ", comes to node ", *to, ink)
        }
        What::Lost { number, kind, to } => {
            write_packet(*number, *kind, ", is lost for node ", *to, ink)
        }
        What::Noise { bytes } => {
            ink.text(" hears noise of ");
            write_size(bytes.as_slice().len(), ink);
            ink.hex(bytes.as_slice());
        }
        What::Interval { length } => {
            ink.line(
                ": an interval of {} ms begins",
                &[Number(u64::from(*length))],
            )
        }
        What::Kept => ink.text(" keeps its vector back, as it heard enough like it"),
    }
}

fn write_stretch(desc: &Description, stretch: &Stretch, ink: &mut Ink) {
    let live = &stretch.live;
    ink.line(
        ", context {}: invocation {} of {}",
        &[
            Number(u64::from(live.ctx.0)),
            Number(u64::from(live.inv)),
            Text(handler_name(desc, live.handler)),
        ],
    );
    match live.phase {
        Phase::Waiting => write_waiting(desc, live, ink),
        Phase::Running => ink.text(" runs"),
        Phase::Asking(function) => {
            ink.line(" waits for {}", &[Text(function_name(desc, function))])
        }
    }
    match stretch.end {
        StretchEnd::Next => {}
        StretchEnd::Answered(value) => {
            ink.text(", answered ");
            ink.value(i32::from(value));
        }
        StretchEnd::Halted => ink.text(" and halts"),
        StretchEnd::Faulted(kind) => ink.line(" and faults, {}", &[Text(fault_word(kind))]),
        StretchEnd::Cut => ink.text(" and is cut"),
        StretchEnd::Open => ink.text(" until the report ends"),
        StretchEnd::Unseen => ink.text(", and goes on behind this picture"),
    }
}

/// What an invocation waits for before it starts.
fn write_waiting(desc: &Description, live: &Live, ink: &mut Ink) {
    ink.text(" waits to start");
    if let Some(blocker) = &live.blocker {
        ink.text(", for ");
        write_shared(desc, &live.locks, &blocker.locks, ink);
        ink.line(
            " of invocation {} of {}",
            &[
                Number(u64::from(blocker.inv)),
                Text(handler_name(desc, blocker.handler)),
            ],
        );
    }
}

fn write_packet(number: u32, kind: PacketKind, what: &str, to: u8, ink: &mut Ink) {
    ink.line(
        ": packet {}, a {}{}{}",
        &[
            Number(u64::from(number)),
            Text(kind.word()),
            Text(what),
            Number(u64::from(to)),
        ],
    );
}

/// How many bytes there are, before what they are.
fn write_size(size: usize, ink: &mut Ink) {
    let unit = if size == 1 { " byte: " } else { " bytes: " };
    ink.line("{}{}", &[Number(size as u64), Text(unit)]);
}
