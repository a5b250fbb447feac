//! Packets on the air. Each word `TIME.NODE.DIGITS` is a packet that a node sends, its bytes in hexadecimal digits; the
//! times don't fall. The answer has what happened on the air, in order: the time and the node, and `sent` with the
//! packet's number, `lost` with its number and the node that it doesn't reach, or `got` with its number and its sender.

use crate::bench::{Bench, Step};
use capsule_codec::from_hex;
use mate_journal::{Air, Aired};
use mate_num::{NoMemory, PacketBytes};
use radio_sim::Event;
use std::alloc::Global;

/// A packet that is to be sent.
#[derive(Drop)]
struct Packet {
    node: u8,
    bytes: PacketBytes,
}

pub fn answer(alloc: Global, bench: &mut Bench, asked: &str) -> Result<String, NoMemory> {
    let mut packets = Vec::new(alloc);
    for word in asked.split(' ') {
        let Some((time, packet)) = packet_of(word) else {
            return Ok("no packet".to_string(alloc)?);
        };
        let Ok(line) = u32::try_from(packets.len()) else {
            return Ok("too many".to_string(alloc)?);
        };
        bench.schedule(time, Event::Planned(line))?;
        packets.push(packet)?;
    }
    run(bench, packets.as_slice())?;
    aired(alloc, bench)
}

/// The packet of a word, and its time.
fn packet_of(word: &str) -> Option<(u32, Packet)> {
    let (time, rest) = word.split_once('.')?;
    let (node, digits) = rest.split_once('.')?;
    let time = time.parse::<u32>().ok()?;
    let node = node.parse::<u8>().ok()?;
    let bytes = bytes_of(digits)?;
    Some((time, Packet { node, bytes }))
}

fn bytes_of(digits: &str) -> Option<PacketBytes> {
    let image = from_hex(digits.as_bytes()).ok()?;
    PacketBytes::try_from(image.as_slice()).ok()
}

/// Sends the packets at their times, and records where they arrive.
fn run(bench: &mut Bench, packets: &[Packet]) -> Result<(), NoMemory> {
    for _ in 0..1_000_000 {
        let Some((_, event)) = bench.next() else {
            break;
        };
        match event {
            Event::Planned(line) => send(bench, packets, line)?,
            Event::Deliver { link, number, .. } => bench.note(link, number)?,
            _ => Step::Refused,
        };
    }
    Ok(())
}

fn send(bench: &mut Bench, packets: &[Packet], line: u32) -> Result<Step, NoMemory> {
    match packets.get(line as usize) {
        Some(packet) => bench.transmit(packet.node, &packet.bytes),
        None => Ok(Step::Refused),
    }
}

fn aired(alloc: Global, bench: &Bench) -> Result<String, NoMemory> {
    let mut text = String::new(alloc);
    for aired in bench.air() {
        text.push_str(record_of(alloc, aired)?.as_str())?;
    }
    Ok(text)
}

fn record_of(alloc: Global, aired: &Aired) -> Result<String, NoMemory> {
    let time = aired.stamp.time;
    let node = aired.node;
    Ok(match &aired.air {
        Air::Sent { number, .. } => format!(in alloc; " {time}.{node}:sent.{number}"),
        Air::Lost { number, to } => format!(in alloc; " {time}.{node}:lost.{number}.{to}"),
        Air::Got { number, from } => format!(in alloc; " {time}.{node}:got.{number}.{from}"),
        _ => format!(in alloc; " {time}.{node}:?"),
    }?)
}
