//! The blocks that are still to be printed.

ghost use Rattle.std.specs.Prelude.{◌≡◌, ◌+◌, ◌++◌, List, OnOk};
ghost use Rattle.ts_trees.specs.declared.procedure.Proc.{Proc};
ghost use Rattle.ts_proc_texts.specs.Rest.{tokens_if, tokens_on};
ghost use Rattle.ts_proc_texts.specs.Size.{size_if, size_on};

use crate::rest::Rest;
use mate_num::NoMemory;

/// Puts what is left of a block on a stack, if there is something.
#[tactic(auto, using(crate::proofs::StackLemmas::tokens_on_push, crate::proofs::StackLemmas::size_on_push))]
fn push_if<'a>(stack: &mut Vec<Rest<'a>>, rest: Option<Rest<'a>>) -> Result<(), NoMemory>
    ensures left { (procs : List Proc) → OnOk result (tokens_on procs stack.new.items ≡ tokens_if procs rest.entry
        ++ tokens_on procs stack.old.items) }
    ensures size { (procs : List Proc) → OnOk result (size_on procs stack.new.items ≡ size_on procs stack.old.items
        + size_if procs rest.entry) }
{
    match rest {
        None => Ok(()),
        Some(rest) => {
            stack.push(rest)?;
            Ok(())
        }
    }
}

/// Puts what is left of a block on a stack, and above it the block that comes before that.
#[tactic(auto, using(crate::proofs::StackLemmas::tokens_on_push, crate::proofs::StackLemmas::size_on_push))]
pub(crate) fn push_both<'a>(
    stack: &mut Vec<Rest<'a>>,
    rest: Option<Rest<'a>>,
    inner: Option<Rest<'a>>,
) -> Result<(), NoMemory>
    ensures left { (procs : List Proc) → OnOk result (tokens_on procs stack.new.items ≡ tokens_if procs inner.entry
        ++ (tokens_if procs rest.entry ++ tokens_on procs stack.old.items)) }
    ensures size { (procs : List Proc) → OnOk result (size_on procs stack.new.items
        ≡ (size_on procs stack.old.items + size_if procs rest.entry) + size_if procs inner.entry) }
{
    push_if(stack, rest)?;
    push_if(stack, inner)?;
    Ok(())
}
