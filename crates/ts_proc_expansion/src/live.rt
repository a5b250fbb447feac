//! Procedures and blocks whose calls were shortened.

ghost use Rattle.std.specs.Prelude.{◌≡◌, ◌≤◌, ◌<◌, ◌^◌, length, get_or, take, map, OnOk, IfOk};
ghost use Rattle.ts_trees.specs.Seen.{act_of, acts_of, procedure_of, trees_of};
ghost use Rattle.ts_trees.specs.Tree.{run_procedure};
ghost use Rattle.ts_proc_names.specs.Heads.{parameter_count};
ghost use Rattle.ts_proc_names.specs.Named.{written_of};
ghost use Rattle.ts_proc_renaming.specs.Renaming.{nothing_hidden};
ghost use Rattle.ts_proc_renaming.specs.Hidden.{hiding_of};
ghost use Rattle.ts_proc_expansion.specs.Expansion.{callees};
ghost use Rattle.ts_proc_expansion.specs.Plan.{bodies_of};
ghost use Rattle.ts_proc_expansion.specs.Live.{BecomesSame, AddsSame};
ghost use Rattle.ts_proc_expansion.specs.Targets.{AreTargets};

use crate::plan::Plan;
use crate::targets::target;
use mate_num::NoMemory;
use std::alloc::Global;
use ts_proc_names::PScript;
use ts_proc_renaming::Hidden;
use ts_proc_renaming::copies::{same, same_words};
use ts_proc_renaming::statements::{for_next, if_else, if_then, run, simple, while_do};
use ts_trees::{Args, Block, Proc, Stmt, Word};

/// The procedures and the statements of a script with shorter calls: they expand to the same.
pub fn shorter(alloc: Global, plan: &Plan, script: &PScript) -> Result<(Vec<Proc>, Block), NoMemory>
    requires { map procedure_of plan.now.heads.procs.now ≡ (written_of script.now).procs }
    ensures bodies { IfOk result (λ r. bodies_of r.0.items ≡ callees (written_of script.now).procs) }
    ensures same { IfOk result (λ r. BecomesSame (callees (written_of script.now).procs) (acts_of r.1) (written_of script.now).body) }
    ensures counted { IfOk result (λ r. parameter_count (map procedure_of r.0.items) ≡ parameter_count (written_of script.now).procs) }
    ensures few { IfOk result (λ r. parameter_count (map procedure_of r.0.items) < 2 ^ 32) }
{
    let hidden = Hidden::of(alloc, 0, &[])?;
    let live = live_procs(alloc, plan, &hidden)?;
    let targets = live.1.as_slice();
    let count = plan.heads.procs.len();
    let body = live_block(alloc, plan, targets, count, &hidden, script.body())?;
    Ok((live.0, body))
}

// The procedures with fewer calls: a call that adds nothing is left out, and one of a procedure that does nothing
// but run another goes to that other. So a body with many such calls is gone through once, and not at each of its
// calls. And for each procedure, one whose body expands to the same.
fn live_procs(
    alloc: Global,
    plan: &Plan,
    hidden: &Hidden,
) -> Result<(Vec<Proc>, Vec<usize>), NoMemory>
    requires { hiding_of hidden.now ≡ nothing_hidden }
    ensures same { IfOk result (λ r. bodies_of r.0.items ≡ bodies_of plan.now.heads.procs.now) }
    ensures each { IfOk result (λ r. length r.1.items ≡ length plan.now.heads.procs.now) }
    ensures are { IfOk result (λ r. AreTargets plan.now.heads.procs.now r.1.items) }
{
    let mut live = Vec::new(alloc);
    let mut targets = Vec::new(alloc);
    for (place, proc) in plan.heads.procs.iter().enumerate() {
        let body = live_block(alloc, plan, targets.as_slice(), place, hidden, &proc.body)?;
        let target = target(
            &plan.heads,
            targets.as_slice(),
            place,
            proc,
            body.as_slice(),
        );
        targets.push(target)?;
        let name = same(&proc.name);
        let params = same_words(alloc, proc.params.as_slice())?;
        live.push(Proc { name, params, body })?;
    }
    Ok((live, targets))
}

// A block after `count` procedures, with its calls shortened.
#[cycle(live)]
fn live_block(
    alloc: Global,
    plan: &Plan,
    targets: &[usize],
    count: usize,
    hidden: &Hidden,
    stmts: &Block,
) -> Result<Block, NoMemory>
    requires each { count ≤ length targets.now }
    requires are { AreTargets plan.now.heads.procs.now targets.now }
    requires hides { hiding_of hidden.now ≡ nothing_hidden }
    ensures { let known = take count (bodies_of plan.now.heads.procs.now) in
        IfOk result (λ live. BecomesSame known (acts_of live) (acts_of stmts.now)) }
{
    let mut live = Block::new(alloc);
    for stmt in stmts.as_slice() {
        live_statement(alloc, plan, targets, count, hidden, stmt, &mut live)?;
    }
    Ok(live)
}

// Appends a statement, unless it is a call that adds nothing.
#[cycle(live)]
fn live_statement(
    alloc: Global,
    plan: &Plan,
    targets: &[usize],
    count: usize,
    hidden: &Hidden,
    stmt: &Stmt,
    live: &mut Block,
) -> Result<(), NoMemory>
    requires each { count ≤ length targets.now }
    requires are { AreTargets plan.now.heads.procs.now targets.now }
    requires hides { hiding_of hidden.now ≡ nothing_hidden }
    ensures { let known = take count (bodies_of plan.now.heads.procs.now) in
        OnOk result (AddsSame known (map act_of live.old) (act_of stmt.now) (map act_of live.new)) }
{
    match stmt {
        Stmt::Set(..)
        | Stmt::SetItem(..)
        | Stmt::Append(..)
        | Stmt::Take(..)
        | Stmt::Clear(_)
        | Stmt::Do(..) => simple(alloc, hidden, stmt, live),
        Stmt::If(test, body, None) => {
            let body = live_block(alloc, plan, targets, count, hidden, body)?;
            if_then(alloc, hidden, test, body, live)
        }
        Stmt::If(test, body, Some(other)) => {
            let body = live_block(alloc, plan, targets, count, hidden, body)?;
            let other = live_block(alloc, plan, targets, count, hidden, other)?;
            if_else(alloc, hidden, test, body, other, live)
        }
        Stmt::For(head, body, next) => {
            let body = live_block(alloc, plan, targets, count, hidden, body)?;
            for_next(alloc, hidden, head, body, next, live)
        }
        Stmt::While(test, body) => {
            let body = live_block(alloc, plan, targets, count, hidden, body)?;
            while_do(alloc, hidden, test, body, live)
        }
        Stmt::Run(name, args) => live_call(alloc, plan, targets, count, hidden, name, args, live),
    }
}

// Appends a `do`, or one that adds the same, unless it adds nothing.
fn live_call(
    alloc: Global,
    plan: &Plan,
    targets: &[usize],
    count: usize,
    hidden: &Hidden,
    name: &Word,
    args: &Args,
    live: &mut Block,
) -> Result<(), NoMemory>
    requires each { count ≤ length targets.now }
    requires are { AreTargets plan.now.heads.procs.now targets.now }
    requires hides { hiding_of hidden.now ≡ nothing_hidden }
    ensures { let known = take count (bodies_of plan.now.heads.procs.now) in
        OnOk result (AddsSame known (map act_of live.old) (run_procedure name.now (trees_of args.now)) (map act_of live.new)) }
{
    let Some(place) = plan.heads.place(count, &name.name) else {
        return Ok(());
    };
    if plan.heads.procs[place].params.len() > 0 {
        return run(alloc, hidden, name, args.as_slice(), live);
    }
    if plan.extents[place].count == 0 {
        return Ok(());
    }
    let target = targets[place];
    let proc = proc_at(plan, target);
    if proc.params.len() > 0 {
        return run(alloc, hidden, name, args.as_slice(), live);
    }
    let Some(named) = plan.heads.place(count, &proc.name.name) else {
        return run(alloc, hidden, name, args.as_slice(), live);
    };
    if named != target {
        return run(alloc, hidden, name, args.as_slice(), live);
    }
    run(alloc, hidden, &proc.name, args.as_slice(), live)
}

// The procedure at a place.
fn proc_at<'a>(plan: &Plan<'a>, place: usize) -> &'a Proc
    requires { place < length plan.now.heads.procs.now }
    ensures { result.now ≡ get_or plan.now.heads.procs.now place result.now }
{
    &plan.heads.procs[place]
}
