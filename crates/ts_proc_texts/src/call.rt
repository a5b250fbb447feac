//! A `do`: the assignments of its arguments, which are printed, and the body of its procedure, which is left.

ghost use Rattle.std.specs.Prelude.{◌≡◌, ◌≤◌, ◌<◌, ◌+◌, ◌^◌, length, take};
ghost use Rattle.ts_trees.specs.Seen.{acts, trees_of};
ghost use Rattle.ts_trees.specs.Spelling.{acts_spelled};
ghost use Rattle.ts_trees.specs.Tree.{run_procedure};
ghost use Rattle.ts_syntax.specs.Print.{PrintsTokens};
ghost use Rattle.ts_proc_names.specs.Places.{declared_as};
ghost use Rattle.ts_proc_renaming.specs.Renaming.{assigned};
ghost use Rattle.ts_proc_expansion.specs.Expansion.{body_called};
ghost use Rattle.ts_proc_expansion.specs.Plan.{bodies_of};
ghost use Rattle.ts_proc_texts.specs.Hidings.{hiding_at};
ghost use Rattle.ts_proc_texts.specs.Rest.{tokens_if, PrintsUpTo};
ghost use Rattle.ts_proc_texts.specs.Size.{act_size, sizes_of_bodies, size_if};

use crate::bodies::Bodies;
use crate::heads::assignment;
use crate::rest::{Close, Rest};
use mate_files::Sink;
use ts_proc_renaming::numbers::parameter_name;
use ts_syntax::Printer;
use ts_trees::{Args, Expr, Word};

/// Prints the assignments of a `do` in the body at `count`, and returns the body of its procedure.
#[inline(never)]
pub(crate) fn call<'a, S: Sink>(
    bodies: &Bodies<'a>,
    count: usize,
    name: &Word,
    args: &Args,
    printer: &mut Printer,
    out: &mut S,
) -> Option<Rest<'a>>
    ensures prints { let procs = bodies.now.plan.heads.procs.now in
        let callee = declared_as (take count (bodies_of procs)) name.now.name in
        PrintsUpTo (S.written out.old) (S.faults out.old) printer.old (S.written out.new) (S.faults out.new) printer.new
        (tokens_if procs result) (acts_spelled (acts (body_called (hiding_at procs count) name.now (trees_of args.now) callee))) }
    ensures smaller { let procs = bodies.now.plan.heads.procs.now in
        size_if procs result < act_size (take count (sizes_of_bodies procs)) (run_procedure name.now (trees_of args.now)) }
{
    let Some(place) = bodies.plan.heads.place(count, &name.name) else {
        return None;
    };
    let proc = &bodies.plan.heads.procs[place];
    let params = proc.params.as_slice();
    let first = bodies.plan.firsts[place];
    let args = args.as_slice();
    let args = &args[..args.len().min(params.len())];
    assignments(bodies, count, name.place, first, args, printer, out);
    Some(Rest {
        place,
        stmts: proc.body.as_slice(),
        close: Close::Nothing,
    })
}

// Prints an assignment of each argument: the first one to the variable of this number, the others to those after it.
fn assignments<S: Sink>(
    bodies: &Bodies,
    count: usize,
    place: u32,
    first: u32,
    args: &[Expr],
    printer: &mut Printer,
    out: &mut S,
)
    requires { first + length args.now ≤ 2 ^ 32 }
    ensures { PrintsTokens (S.written out.old) (S.faults out.old) printer.old (S.written out.new) (S.faults out.new) printer.new
        (acts_spelled (acts (assigned (hiding_at bodies.now.plan.heads.procs.now count) place first (trees_of args.now)))) }
{
    for (index, arg) in args.iter().enumerate() {
        let name = parameter_name(first + index as u32);
        assignment(bodies, count, &Word { name, place }, arg, printer, out);
    }
}
