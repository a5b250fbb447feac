//! Reports with more marks than a picture has, or more packets than are drawn each, and what is counted of their pictures.

use mate_files::{MemSink, Pen};
use std::alloc::Global;
use std::{io, str};

/// How many posts are dropped.
const DROPS: u64 = 10_050;

/// A report of the built-in machine: an invocation that lives at its end, and then many dropped posts in one event.
pub fn long_report(alloc: Global) -> MemSink {
    let mut report = MemSink::new(alloc);
    let mut pen = Pen::new();
    pen.text(
        &mut report,
        "1 0 0 install main 1 4d41544501000000000100000001001002030400030003010a04020204040000\n",
    );
    pen.text(&mut report, "2 0 0 post 1 main 0\n2 0 0 start 1\n");
    for _ in 0..DROPS {
        pen.text(&mut report, "3 0 0 drop main busy\n");
    }
    pen.text(&mut report, "end ");
    pen.number(&mut report, DROPS + 3);
    pen.text(&mut report, " 3 1\n");
    report
}

/// How many packets are sent; each fourth one is lost.
const PACKETS: u64 = 2_400;

/// A report of two nodes: a packet each ms, from one to the other.
pub fn dense_report(alloc: Global) -> MemSink {
    let mut report = MemSink::new(alloc);
    let mut pen = Pen::new();
    for packet in 1..=PACKETS {
        let event = packet * 2;
        write_line(
            event,
            packet,
            " 0 sent ",
            " 040001\n",
            &mut pen,
            &mut report,
        );
        if packet % 4 == 0 {
            write_line(event, packet, " 0 lost ", " 1\n", &mut pen, &mut report);
        } else {
            write_line(event + 1, packet, " 1 got ", " 0\n", &mut pen, &mut report);
        }
    }
    pen.text(&mut report, "end 4800 4800 2\n");
    report
}

/// Writes a line of an event and a packet, whose number is the ms.
fn write_line(
    event: u64,
    packet: u64,
    what: &str,
    rest: &str,
    pen: &mut Pen,
    report: &mut MemSink,
) {
    pen.number(report, event);
    pen.text(report, " ");
    pen.number(report, packet);
    pen.text(report, what);
    pen.number(report, packet);
    pen.text(report, rest);
}

/// Prints the line that says which part is drawn and the entry of the legend, and how many packets and columns there are.
pub fn count_columns(rt: &impl Print, picture: &[u8]) -> io::Result<()> {
    let Ok(text) = str::from_utf8(picture) else {
        return println!(rt; "no text");
    };
    let (mut packets, mut columns, mut losses) = (0u64, 0u64, 0u64);
    for line in text.lines() {
        if line.contains(" marks from ") || line.contains("too many to draw") {
            println!(rt; "{line}")?;
        }
        if line.contains("class=\"came ") || line.contains("class=\"lost\"") {
            packets = packets.saturating_add(1);
        }
        if line.contains(" packets sent here") {
            columns = columns.saturating_add(1);
        }
        if line.contains(" losses here") {
            losses = losses.saturating_add(1);
        }
    }
    println!(rt; "{packets} packets, {columns} columns of packets, {losses} of losses")
}

/// Prints the line that says which part is drawn, and how many marks there are, arrows of what still lives, and things
/// that go on behind the picture.
pub fn count_marks(rt: &impl Print, picture: &[u8]) -> io::Result<()> {
    let Ok(text) = str::from_utf8(picture) else {
        return println!(rt; "no text");
    };
    let (mut marks, mut arrows, mut dots) = (0u64, 0u64, 0u64);
    for line in text.lines() {
        if line.contains(" marks from ") {
            println!(rt; "{line}")?;
        }
        if line.contains("<title>") {
            marks = marks.saturating_add(1);
        }
        if line.contains("class=\"open\"") {
            arrows = arrows.saturating_add(1);
        }
        if line.contains("goes on behind this picture, ") {
            dots = dots.saturating_add(1);
        }
    }
    println!(rt; "{marks} marks, {arrows} arrows, {dots} that go on")
}
