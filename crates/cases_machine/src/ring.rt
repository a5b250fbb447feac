//! The ring of ready contexts: what is done with it in turn. `ready`, `remove` and `clear` print nothing.

use crate::steps::{Part, answers, step_of};
use context_sched::Ring;
use mate_num::ContextId;
use std::alloc::{AllocError, Global};

pub fn answer(alloc: Global, case: &str) -> Result<String, AllocError> {
    let Ok(mut ring) = Ring::new(alloc) else {
        return "no memory".to_string(alloc);
    };
    answers(alloc, &mut ring, case)
}

impl Part for Ring {
    fn take(&mut self, alloc: Global, step: &str) -> Result<String, AllocError> {
        taken(alloc, self, step)
    }
}

fn taken(alloc: Global, ring: &mut Ring, step: &str) -> Result<String, AllocError> {
    match step {
        "next" => return printed(alloc, ring.next()),
        "first" => return printed(alloc, ring.first()),
        "len" => return format!(in alloc; "{}", ring.len()),
        "empty" => return format!(in alloc; "{}", ring.is_empty()),
        "clear" => {
            ring.clear();
            return Ok(String::new(alloc));
        }
        _ => {}
    }
    let step = step_of(step);
    let ctx = ContextId(step.at);
    match step.verb {
        "contains" => return format!(in alloc; "{}", ring.contains(ctx)),
        "remove" => ring.remove(ctx),
        "ready" if ctx.0 < 16 && !ring.contains(ctx) => ring.ready(ctx),
        _ => return "no step".to_string(alloc),
    }
    Ok(String::new(alloc))
}

fn printed(alloc: Global, ctx: Option<ContextId>) -> Result<String, AllocError> {
    match ctx {
        Some(ctx) => format!(in alloc; "{}", ctx.0),
        None => "none".to_string(alloc),
    }
}
