//! The pending calls: `ask CONTEXT FUNCTION VALUE VALUE`, `asked CONTEXT`, `answer CONTEXT` and `cancel` in turn. `ask`
//! and `cancel` print nothing.

use crate::steps::{Part, answers, place, step_of, value};
use mate_num::{ContextId, FunId, Payload};
use split_phase::{NotWaiting, Pending};
use std::alloc::{AllocError, Global};

pub fn answer(alloc: Global, case: &str) -> Result<String, AllocError> {
    let mut pending = Pending::new();
    answers(alloc, &mut pending, case)
}

impl Part for Pending {
    fn take(&mut self, alloc: Global, step: &str) -> Result<String, AllocError> {
        taken(alloc, self, step)
    }
}

fn taken(alloc: Global, pending: &mut Pending, step: &str) -> Result<String, AllocError> {
    if step == "cancel" {
        pending.cancel();
        return Ok(String::new(alloc));
    }
    let ctx = ContextId(step_of(step).at);
    if ctx.0 >= 16 {
        return "no context".to_string(alloc);
    }
    match step_of(step).verb {
        "asked" => asked_words(alloc, pending.asked(ctx)),
        "answer" => answer_words(alloc, pending.answer(ctx)),
        "ask" if pending.asked(ctx).is_none() => {
            let (fun, args) = call_of(step);
            pending.ask(ctx, fun, args);
            Ok(String::new(alloc))
        }
        _ => "no step".to_string(alloc),
    }
}

fn asked_words(alloc: Global, call: Option<(FunId, Payload)>) -> Result<String, AllocError> {
    match call {
        Some((fun, args)) => format!(in alloc; "Some((FunId({}), {args:?}))", fun.0),
        None => "None".to_string(alloc),
    }
}

fn answer_words(alloc: Global, answered: Result<FunId, NotWaiting>) -> Result<String, AllocError> {
    match answered {
        Ok(fun) => format!(in alloc; "Ok(FunId({}))", fun.0),
        Err(NotWaiting) => "Err(NotWaiting)".to_string(alloc),
    }
}

/// The function and the values after `ask` and the context.
fn call_of(step: &str) -> (FunId, Payload) {
    let mut words = step.split(' ');
    let _verb = words.next();
    let _context = words.next();
    let fun = FunId(place(words.next()));
    let mut args = Payload::new();
    args.push(value(words.next()));
    args.push(value(words.next()));
    (fun, args)
}
