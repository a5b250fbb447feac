//! Bodies that are still to be written.

ghost use Rattle.std.specs.Prelude.{◌≡◌, ◌+◌, ◌++◌, List, OnOk};
ghost use Rattle.ts_trees.specs.declared.procedure.Proc.{Proc};
ghost use Rattle.ts_procs.specs.Pending.{acts_left, left_if, left_on, steps_left, steps_if, steps_on};

use crate::pending::Pending;
use mate_num::NoMemory;

/// Puts a body on a stack, if there is one.
#[tactic(auto, using(crate::proofs::WritingLemmas::left_on_push, crate::proofs::WritingLemmas::steps_on_push))]
pub fn push_if<'a>(stack: &mut Vec<Pending<'a>>, body: Option<Pending<'a>>) -> Result<(), NoMemory>
    ensures left { (procs : List Proc) → OnOk result (left_on procs stack.new.items ≡ left_if procs body.entry
        ++ left_on procs stack.old.items) }
    ensures steps { (procs : List Proc) → OnOk result (steps_on procs stack.new.items ≡ steps_on procs stack.old.items
        + steps_if procs body.entry) }
{
    match body {
        None => Ok(()),
        Some(body) => {
            stack.push(body)?;
            Ok(())
        }
    }
}

/// Puts what is left of a body on a stack, and above it the body that comes before that, if there is one.
#[tactic(auto, using(crate::proofs::WritingLemmas::left_on_push, crate::proofs::WritingLemmas::steps_on_push))]
pub fn push_next<'a>(
    stack: &mut Vec<Pending<'a>>,
    rest: Pending<'a>,
    body: Option<Pending<'a>>,
) -> Result<(), NoMemory>
    ensures left { (procs : List Proc) → OnOk result (left_on procs stack.new.items ≡ left_if procs body.entry
        ++ (acts_left procs rest.entry ++ left_on procs stack.old.items)) }
    ensures steps { (procs : List Proc) → OnOk result (steps_on procs stack.new.items
        ≡ (steps_on procs stack.old.items + steps_left procs rest.entry) + steps_if procs body.entry) }
{
    stack.push(rest)?;
    push_if(stack, body)?;
    Ok(())
}
