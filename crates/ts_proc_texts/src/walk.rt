//! The statements of an expansion, printed one after another.

ghost use Rattle.std.specs.Prelude.{length};
ghost use Rattle.ts_proc_texts.specs.Rest.{block_tokens, PrintsAllOrSome};

use crate::advance::advance;
use crate::bodies::Bodies;
use crate::rest::{Close, Rest};
use crate::stack::push_both;
use mate_files::Sink;
use std::alloc::Global;
use ts_syntax::Printer;
use ts_trees::Stmt;

/// Prints what the statements of a script become, and says whether all was printed. It stops at the first fault of `out`,
/// and if no memory is left. The blocks that are begun are on a stack of their own, so that a chain of procedures may be as
/// long as a source is.
pub(crate) fn walk<'a, S: Sink>(
    alloc: Global,
    bodies: &Bodies<'a>,
    stmts: &'a [Stmt],
    printer: &mut Printer,
    out: &mut S,
) -> bool
    ensures { let procs = bodies.now.plan.heads.procs.now in
        PrintsAllOrSome (S.written out.old) (S.faults out.old) printer.old (S.written out.new) (S.faults out.new) printer.new
        result (block_tokens procs (length procs) stmts.now) }
{
    let script = Rest {
        place: bodies.plan.heads.procs.len(),
        stmts,
        close: Close::Nothing,
    };
    let mut stack = Vec::new(alloc);
    let Ok(()) = push_both(&mut stack, Some(script), None) else {
        return false;
    };
    while let Some(rest) = stack.pop() {
        if printer.pen.result.is_err() {
            return false;
        }
        let (inner, left) = advance(bodies, rest, printer, out);
        let Ok(()) = push_both(&mut stack, left, inner) else {
            return false;
        };
    }
    true
}
