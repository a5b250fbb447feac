//! Two nodes of a machine, and what happens to them in turn: `hold NODE HANDLER VERSION IMAGE`, `hear NODE PACKET`,
//! `vector NODE`, `marked NODE`, `pump NODE`, `collected NODE HANDLER` and `forget NODE`, with images and packets in
//! hexadecimal digits. `hold` and `forget` print nothing.

use capsule_codec::from_hex;
use capsule_exchange::{Exchange, Heard};
use mate_num::HandlerId;
use packet_codec::decode;
use std::alloc::{AllocError, Global};
use vm_shape::Description;

pub fn answer(alloc: Global, desc: &Description, case: &str) -> Result<String, AllocError> {
    let handlers = desc.handlers.len();
    if handlers < 1 || handlers > 8 {
        return "no handlers".to_string(alloc);
    }
    let mut nodes = [Exchange::new(handlers as u8), Exchange::new(handlers as u8)];
    let mut line = String::new(alloc);
    for step in case.split(", ") {
        let answer = taken(alloc, desc, &mut nodes, step)?;
        if !line.is_empty() && !answer.is_empty() {
            line.push_str(" / ")?;
        }
        line.push_str(answer.as_str())?;
    }
    Ok(line)
}

fn taken(
    alloc: Global,
    desc: &Description,
    nodes: &mut [Exchange; 2],
    step: &str,
) -> Result<String, AllocError> {
    let (verb, rest) = step.split_once(' ').unwrap_or((step, ""));
    let (place, rest) = rest.split_once(' ').unwrap_or((rest, ""));
    let node = &mut nodes[if place == "1" { 1 } else { 0 }];
    match verb {
        "vector" => format!(in alloc; "{:?}", node.vector()),
        "marked" => node.marked().to_string(alloc),
        "pump" => format!(in alloc; "{:?}", node.pump()),
        "hear" => hear(alloc, desc, node, rest),
        "collected" => collected(alloc, node, rest),
        "hold" => hold(alloc, node, rest),
        "forget" => {
            node.forget();
            Ok(String::new(alloc))
        }
        _ => "no step".to_string(alloc),
    }
}

fn hear(
    alloc: Global,
    desc: &Description,
    node: &mut Exchange,
    digits: &str,
) -> Result<String, AllocError> {
    let Ok(bytes) = from_hex(digits.as_bytes()) else {
        return "no digits".to_string(alloc);
    };
    match decode(desc, bytes.as_slice()) {
        Ok(packet) if node.handlers() == desc.handlers.len() => {
            let Heard {
                consistent,
                asks,
                complete,
            } = node.hear(&packet);
            format!(in alloc;
                "Heard {{ consistent: {consistent:?}, asks: {asks:?}, complete: {complete:?} }}"
            )
        }
        _ => "no packet".to_string(alloc),
    }
}

fn collected(alloc: Global, node: &Exchange, handler: &str) -> Result<String, AllocError> {
    match handler.parse::<u8>() {
        Ok(handler) if usize::from(handler) < node.handlers() => {
            format!(in alloc; "{:?}", node.complete(HandlerId(handler)))
        }
        _ => "no handler".to_string(alloc),
    }
}

fn hold(alloc: Global, node: &mut Exchange, held: &str) -> Result<String, AllocError> {
    let (handler, held) = held.split_once(' ').unwrap_or((held, ""));
    let (version, digits) = held.split_once(' ').unwrap_or((held, ""));
    let (Ok(handler), Ok(version)) = (handler.parse::<u8>(), version.parse::<u32>()) else {
        return "no handler".to_string(alloc);
    };
    let Ok(image) = from_hex(digits.as_bytes()) else {
        return "no digits".to_string(alloc);
    };
    let handler = HandlerId(handler);
    if usize::from(handler.0) >= node.handlers()
        || node.held(handler) >= version
        || image.is_empty()
    {
        return "no newer version".to_string(alloc);
    }
    node.installed(handler, version, &image);
    Ok(String::new(alloc))
}
