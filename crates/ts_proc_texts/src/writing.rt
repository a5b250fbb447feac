//! The text of the expansion of a script with procedures.

ghost use Rattle.std.specs.Prelude.{◌≡◌, ◌++◌, length, map, codes};
ghost use Rattle.mate_files.specs.Pen.{Prints};
ghost use Rattle.mate_files.specs.Sink.{Puts};
ghost use Rattle.ts_trees.specs.Seen.{acts_of, procedure_of};
ghost use Rattle.ts_trees.specs.Spelling.{decls_spelled};
ghost use Rattle.ts_trees.specs.Text.{text_of};
ghost use Rattle.ts_syntax.specs.Line.{script_line};
ghost use Rattle.ts_proc_names.specs.Heads.{parameter_count};
ghost use Rattle.ts_proc_names.specs.Named.{written_of};
ghost use Rattle.ts_proc_expansion.specs.Expansion.{callees, expansion};
ghost use Rattle.ts_proc_expansion.specs.Live.{BecomesSame};
ghost use Rattle.ts_proc_expansion.specs.Plan.{bodies_of};
ghost use Rattle.ts_proc_texts.specs.Rest.{block_tokens, why_stopped};

use crate::bodies::Bodies;
use crate::walk::walk;
use mate_files::{Pen, Sink, SinkFault};
use std::alloc::Global;
use ts_proc_expansion::{Plan, shorter};
use ts_proc_names::PScript;
use ts_proc_renaming::numbers::declarations;
use ts_syntax::Printer;
use ts_trees::{Decl, Stmt};

/// Writes the plain script that a script with procedures expands to: its tokens with one space between two, and a line
/// feed. The expansion isn't built: it takes the memory of the script, and of the blocks and calls that are open at a time.
/// A refusal leaves a prefix of the text in the sink; `NoMemory` may come instead of any answer.
pub fn write_expansion<S: Sink>(
    alloc: Global,
    script: &PScript,
    out: &mut S,
) -> Result<(), SinkFault>
    ensures { Puts (S.written out.old) (S.faults out.old) (S.written out.new) (S.faults out.new) result
        (script_line (expansion (written_of script.now))) }
{
    let Ok(plan) = Plan::of(alloc, script.procs().as_slice()) else {
        return Err(SinkFault::NoMemory);
    };
    if plan.has_idle() {
        return shortened(alloc, &plan, script, out);
    }
    planned(alloc, plan, script, script.body().as_slice(), out)
}

// The same by procedures and statements whose calls were shortened.
fn shortened<S: Sink>(
    alloc: Global,
    plan: &Plan,
    script: &PScript,
    out: &mut S,
) -> Result<(), SinkFault>
    requires { map procedure_of plan.now.heads.procs.now ≡ (written_of script.now).procs }
    ensures { Puts (S.written out.old) (S.faults out.old) (S.written out.new) (S.faults out.new) result
        (script_line (expansion (written_of script.now))) }
{
    let Ok(live) = shorter(alloc, plan, script) else {
        return Err(SinkFault::NoMemory);
    };
    let Ok(shorter) = Plan::of(alloc, live.0.as_slice()) else {
        return Err(SinkFault::NoMemory);
    };
    planned(alloc, shorter, script, live.1.as_slice(), out)
}

// The same by a plan of procedures, and by statements that expand to the same as the script's.
fn planned<'a, S: Sink>(
    alloc: Global,
    plan: Plan<'a>,
    script: &PScript,
    stmts: &'a [Stmt],
    out: &mut S,
) -> Result<(), SinkFault>
    requires planned { bodies_of plan.heads.procs.now ≡ callees (written_of script.now).procs }
    requires same { BecomesSame (callees (written_of script.now).procs) (acts_of stmts.now) (written_of script.now).body }
    requires counted { plan.parameters ≡ parameter_count (written_of script.now).procs }
    ensures { Puts (S.written out.old) (S.faults out.old) (S.written out.new) (S.faults out.new) result
        (script_line (expansion (written_of script.now))) }
{
    let Ok(decls) = declarations(alloc, script.decls().as_slice(), plan.parameters) else {
        return Err(SinkFault::NoMemory);
    };
    let Ok(bodies) = Bodies::of(alloc, plan) else {
        return Err(SinkFault::NoMemory);
    };
    lines(alloc, &bodies, decls.as_slice(), stmts, out)
}

// The declarations and what the statements become, in one line.
fn lines<'a, S: Sink>(
    alloc: Global,
    bodies: &Bodies<'a>,
    decls: &[Decl],
    stmts: &'a [Stmt],
    out: &mut S,
) -> Result<(), SinkFault>
    ensures { let procs = bodies.now.plan.heads.procs.now in
        Puts (S.written out.old) (S.faults out.old) (S.written out.new) (S.faults out.new) result
        (text_of (decls_spelled decls.now ++ block_tokens procs (length procs) stmts.now) ++ codes "\n") }
{
    let mut printer = Printer::new();
    printer.decls(out, decls);
    let whole = walk(alloc, bodies, stmts, &mut printer, out);
    let pen = printer.into_pen();
    if whole {
        return ended(pen, out);
    }
    stopped(pen)
}

// The end of the line.
fn ended<S: Sink>(pen: Pen, out: &mut S) -> Result<(), SinkFault>
    ensures { Prints (S.written out.old) (S.faults out.old) pen.result (S.written out.new) (S.faults out.new) result (codes "\n") }
{
    let mut pen = pen;
    pen.text(out, "\n");
    pen.finish()
}

// Why a text was not printed to its end: the fault that the pen met, or else that memory ran out.
fn stopped(pen: Pen) -> Result<(), SinkFault>
    ensures { result ≡ why_stopped pen.result }
{
    match pen.finish() {
        Ok(()) => Err(SinkFault::NoMemory),
        Err(fault) => Err(fault),
    }
}
