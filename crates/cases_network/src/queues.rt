//! What waits and comes. A step `KINDNODE@TIME` schedules an event, whose number is that of the step among such steps,
//! from 1: `p` a line of the plan, `t` a timer's period, `f` a point, `x` an interval's end, `u` a fragment to be sent,
//! and `d` an answer. `cT`, `cP` and `cA` with a node cancel what its timer, its fragments and its answers wait for.
//! `n` takes the next event: the answer has its time and its kind with its number, or with its node if it has none.

use crate::bench::{Bench, Step};
use mate_num::{ContextId, HandlerId, NoMemory};
use radio_sim::{Cancel, Event};
use std::alloc::Global;

pub fn answer(alloc: Global, bench: &mut Bench, asked: &str) -> Result<String, NoMemory> {
    let mut text = String::new(alloc);
    let mut number = 0;
    for step in asked.split(' ') {
        if step == "n" {
            text.push_str(" ")?;
            text.push_str(next(alloc, bench)?.as_str())?;
        } else if let Some(which) = cancelled(step) {
            bench.cancel(which);
        } else {
            number = u32::saturating_add(number, 1);
            text.push_str(scheduled(bench, number, step)?)?;
        }
    }
    Ok(text)
}

/// The next event, or `-` if none waits.
fn next(alloc: Global, bench: &mut Bench) -> Result<String, NoMemory> {
    let Some((time, event)) = bench.next() else {
        return Ok("-".to_string(alloc)?);
    };
    Ok(match event {
        Event::Planned(line) => format!(in alloc; "{time}:p{line}"),
        Event::Period { node, handler } => format!(in alloc; "{time}:t{node}.{}", handler.0),
        Event::Fire { node } => format!(in alloc; "{time}:f{node}"),
        Event::Expire { node } => format!(in alloc; "{time}:x{node}"),
        Event::Pump { node } => format!(in alloc; "{time}:u{node}"),
        Event::Due { inv, .. } => format!(in alloc; "{time}:d{inv}"),
        Event::Deliver { number, .. } => format!(in alloc; "{time}:l{number}"),
    }?)
}

/// The cancelling that a step names.
fn cancelled(step: &str) -> Option<Cancel> {
    let (kind, node) = step.split_at_checked(2)?;
    let node = node.parse::<u8>().ok()?;
    match kind {
        "cT" => Some(Cancel::Timer(node)),
        "cP" => Some(Cancel::Pump(node)),
        "cA" => Some(Cancel::Answers(node)),
        _ => None,
    }
}

/// Schedules what a step says, and returns what is wrong with it, if anything.
fn scheduled(bench: &mut Bench, number: u32, step: &str) -> Result<&'static str, NoMemory> {
    let Some((time, event)) = event_of(number, step) else {
        return Ok(" ?");
    };
    match bench.schedule(time, event)? {
        Step::Done => Ok(""),
        Step::Refused => Ok(" late"),
    }
}

/// The event that a step schedules, with its time.
fn event_of(number: u32, step: &str) -> Option<(u32, Event)> {
    let (kind, rest) = step.split_at_checked(1)?;
    let (node, time) = rest.split_once('@')?;
    let node = node.parse::<u8>().ok()?;
    let time = time.parse::<u32>().ok()?;
    Some((time, event(kind, node, number)?))
}

/// The event of a kind.
fn event(kind: &str, node: u8, number: u32) -> Option<Event> {
    match kind {
        "p" => Some(Event::Planned(number)),
        "t" => Some(Event::Period {
            node,
            handler: HandlerId(0),
        }),
        "f" => Some(Event::Fire { node }),
        "x" => Some(Event::Expire { node }),
        "u" => Some(Event::Pump { node }),
        "d" => Some(Event::Due {
            node,
            ctx: ContextId(0),
            inv: number,
            value: 0,
        }),
        _ => None,
    }
}
