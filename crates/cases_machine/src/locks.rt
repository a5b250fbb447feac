//! The locks of a node: what is done with them in turn. `grant` prints the context that starts, `blocked` a context's
//! number, and `started` whether it is started; the others print nothing.

use crate::sets::set_of;
use crate::steps::{Part, answers, place};
use lock_manager::Locks;
use mate_num::ContextId;
use std::alloc::{AllocError, Global};

pub fn answer(alloc: Global, case: &str) -> Result<String, AllocError> {
    let mut locks = Locks::new();
    answers(alloc, &mut locks, case)
}

impl Part for Locks {
    fn take(&mut self, alloc: Global, step: &str) -> Result<String, AllocError> {
        taken(alloc, self, step)
    }
}

fn taken(alloc: Global, locks: &mut Locks, step: &str) -> Result<String, AllocError> {
    match step {
        "grant" => return printed(alloc, granted(locks)),
        "clear" => {
            locks.clear();
            return Ok(String::new(alloc));
        }
        _ => {}
    }
    let Some((verb, rest)) = step.split_once(' ') else {
        return "no step".to_string(alloc);
    };
    match verb {
        "wait" => wait(alloc, locks, rest),
        "end" => end(alloc, locks, ContextId(place(Some(rest)))),
        "blocked" => printed(alloc, locks.blocked(ContextId(place(Some(rest))))),
        "started" => format!(in alloc; "{}", locks.is_started(ContextId(place(Some(rest))))),
        _ => "no step".to_string(alloc),
    }
}

fn granted(locks: &mut Locks) -> Option<u8> {
    match locks.grant() {
        Some(ctx) => Some(ctx.0),
        None => None,
    }
}

fn printed(alloc: Global, number: Option<u8>) -> Result<String, AllocError> {
    match number {
        Some(number) => format!(in alloc; "{number}"),
        None => "none".to_string(alloc),
    }
}

/// A context waits for a set: `CONTEXT SET`.
fn wait(alloc: Global, locks: &mut Locks, rest: &str) -> Result<String, AllocError> {
    let Some((ctx, set)) = rest.split_once(' ') else {
        return "no context".to_string(alloc);
    };
    let ctx = ContextId(place(Some(ctx)));
    let Some(set) = set_of(set) else {
        return "no set".to_string(alloc);
    };
    if ctx.0 >= 16 || locks.is_waiting(ctx) || locks.is_started(ctx) {
        return "no context".to_string(alloc);
    }
    locks.enqueue(ctx, set);
    Ok(String::new(alloc))
}

fn end(alloc: Global, locks: &mut Locks, ctx: ContextId) -> Result<String, AllocError> {
    if !locks.is_started(ctx) {
        return "not started".to_string(alloc);
    }
    locks.release(ctx);
    Ok(String::new(alloc))
}
