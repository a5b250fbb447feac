//! One step: what a statement or the end of a block prints before the next block begins.

ghost use Rattle.std.specs.Prelude.{◌≤◌, ◌<◌, ◌+◌, ◌++◌, take};
ghost use Rattle.ts_trees.specs.Seen.{acts, act_of};
ghost use Rattle.ts_trees.specs.Spelling.{acts_spelled};
ghost use Rattle.ts_proc_expansion.specs.Expansion.{expanded_act};
ghost use Rattle.ts_proc_expansion.specs.Plan.{bodies_of};
ghost use Rattle.ts_proc_texts.specs.Hidings.{hiding_at};
ghost use Rattle.ts_proc_texts.specs.Rest.{tokens_if, rest_tokens, close_tokens, PrintsUpTo};
ghost use Rattle.ts_proc_texts.specs.Size.{act_size, sizes_of_bodies, size_if, rest_size, close_size};

use crate::bodies::Bodies;
use crate::call::call;
use crate::heads::{for_head, if_head, next, simple, while_head};
use crate::rest::{Close, Rest};
use mate_files::Sink;
use ts_syntax::Printer;
use ts_trees::Stmt;

/// Prints the first of what is left of a block. Returns a block that begins there, and what is left then of this one.
pub(crate) fn advance<'a, S: Sink>(
    bodies: &Bodies<'a>,
    rest: Rest<'a>,
    printer: &mut Printer,
    out: &mut S,
) -> (Option<Rest<'a>>, Option<Rest<'a>>)
    ensures prints { let procs = bodies.now.plan.heads.procs.now in
        PrintsUpTo (S.written out.old) (S.faults out.old) printer.old (S.written out.new) (S.faults out.new) printer.new
        (tokens_if procs result.0 ++ tokens_if procs result.1) (rest_tokens procs rest.entry) }
    ensures smaller { let procs = bodies.now.plan.heads.procs.now in
        size_if procs result.0 + size_if procs result.1 < rest_size procs rest.entry }
{
    match rest.stmts.split_first() {
        None => (
            end_block(bodies, rest.place, rest.close, printer, out),
            None,
        ),
        Some((stmt, stmts)) => {
            let inner = statement(bodies, rest.place, stmt, printer, out);
            let left = Rest {
                place: rest.place,
                stmts,
                close: rest.close,
            };
            (inner, Some(left))
        }
    }
}

/// Prints the end of a block in the body at a place, and returns the block that begins there.
#[inline(never)]
fn end_block<'a, S: Sink>(
    bodies: &Bodies<'a>,
    place: usize,
    close: Close<'a>,
    printer: &mut Printer,
    out: &mut S,
) -> Option<Rest<'a>>
    ensures prints { let procs = bodies.now.plan.heads.procs.now in
        PrintsUpTo (S.written out.old) (S.faults out.old) printer.old (S.written out.new) (S.faults out.new) printer.new
        (tokens_if procs result) (close_tokens procs place close.entry) }
    ensures smaller { let procs = bodies.now.plan.heads.procs.now in
        size_if procs result ≤ close_size procs place close.entry }
{
    match close {
        Close::Nothing => None,
        Close::EndIf => {
            printer.end_if(out);
            None
        }
        Close::Else(stmts) => {
            printer.otherwise(out);
            Some(Rest {
                place,
                stmts,
                close: Close::EndIf,
            })
        }
        Close::EndWhile => {
            printer.end_while(out);
            None
        }
        Close::Next(word) => {
            next(bodies, place, word, printer, out);
            None
        }
    }
}

/// Prints a statement of the body at a place, up to the block that begins in it, which is returned.
#[inline(never)]
fn statement<'a, S: Sink>(
    bodies: &Bodies<'a>,
    place: usize,
    stmt: &'a Stmt,
    printer: &mut Printer,
    out: &mut S,
) -> Option<Rest<'a>>
    ensures prints { let procs = bodies.now.plan.heads.procs.now in
        let becomes = expanded_act (take place (bodies_of procs)) (hiding_at procs place) (act_of stmt.now) in
        PrintsUpTo (S.written out.old) (S.faults out.old) printer.old (S.written out.new) (S.faults out.new) printer.new
        (tokens_if procs result) (acts_spelled (acts becomes)) }
    ensures smaller { let procs = bodies.now.plan.heads.procs.now in
        size_if procs result < act_size (take place (sizes_of_bodies procs)) (act_of stmt.now) }
{
    match stmt {
        Stmt::Set(..)
        | Stmt::SetItem(..)
        | Stmt::Append(..)
        | Stmt::Take(..)
        | Stmt::Clear(_)
        | Stmt::Do(..) => {
            simple(bodies, place, stmt, printer, out);
            None
        }
        Stmt::If(test, block, other) => {
            if_head(bodies, place, test, printer, out);
            let stmts = block.as_slice();
            match other {
                None => Some(Rest {
                    place,
                    stmts,
                    close: Close::EndIf,
                }),
                Some(other) => Some(Rest {
                    place,
                    stmts,
                    close: Close::Else(other.as_slice()),
                }),
            }
        }
        Stmt::For(head, block, word) => {
            for_head(bodies, place, head, printer, out);
            Some(Rest {
                place,
                stmts: block.as_slice(),
                close: Close::Next(word),
            })
        }
        Stmt::While(test, block) => {
            while_head(bodies, place, test, printer, out);
            Some(Rest {
                place,
                stmts: block.as_slice(),
                close: Close::EndWhile,
            })
        }
        Stmt::Run(name, args) => call(bodies, place, name, args, printer, out),
    }
}
