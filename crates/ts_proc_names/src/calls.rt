//! The names in statements and in the heads of procedures.

ghost use Rattle.std.specs.Prelude.{◌≡◌, ◌≤◌, ◌<◌, [], length, take};
ghost use Rattle.std.specs.Result.{result_err};
ghost use Rattle.ts_trees.specs.Seen.{acts_of, act_of, trees_of, procedure_of, procedure_source_of};
ghost use Rattle.ts_proc_names.specs.Places.{declared_as};
ghost use Rattle.ts_proc_names.specs.Heads.{heads_of};
ghost use Rattle.ts_proc_names.specs.NameFaults.{call_name_fault, act_fault, acts_fault, params_fault, procedure_fault, name_fault};
ghost use Rattle.ts_proc_names.specs.Passing.{NamesPass};

use crate::fault::ProcFault;
use crate::heads::Heads;
use crate::parameters::Parameters;
use crate::reserved::{arguments, declarations, expression, word};
use std::alloc::Global;
use ts_trees::{Args, Block, Proc, ProcScript, Stmt, Word};

/// Checks the names of a whole script.
pub(crate) fn script(alloc: Global, script: &ProcScript) -> Result<(), ProcFault>
    ensures { NamesPass result (name_fault (procedure_source_of script.now)) }
{
    declarations(script.decls.as_slice())?;
    let procs = script.procs.as_slice();
    let heads = Heads::of(alloc, procs)?;
    for (place, proc) in procs.iter().enumerate() {
        procedure(alloc, &heads, place, proc)?;
    }
    block(&heads, procs.len(), &script.body)
}

// Checks a procedure, in which those before its place can be called.
fn procedure(alloc: Global, heads: &Heads, place: usize, proc: &Proc) -> Result<(), ProcFault>
    ensures { NamesPass result (procedure_fault (take place (heads_of heads.now.procs.now)) (procedure_of proc.now)) }
{
    word(&proc.name)?;
    if heads.parameters(place, &proc.name.name).is_some() {
        return Err(again(&proc.name));
    }
    parameters(alloc, proc.params.as_slice())?;
    block(heads, place, &proc.body)
}

fn parameters(alloc: Global, params: &[Word]) -> Result<(), ProcFault>
    ensures { NamesPass result (params_fault [] params.now) }
{
    let parameters = Parameters::of(alloc, params)?;
    for (place, param) in params.iter().enumerate() {
        word(param)?;
        if parameters.among_first(place, &param.name).is_some() {
            return Err(again(param));
        }
    }
    Ok(())
}

fn again(word: &Word) -> ProcFault
    ensures { result ≡ ProcFault.Again word.now.name word.now.place }
{
    ProcFault::Again {
        name: word.name.copy(),
        place: word.place,
    }
}

#[cycle(block)]
fn block(heads: &Heads, count: usize, stmts: &Block) -> Result<(), ProcFault>
    ensures { result_err result ≡ acts_fault (take count (heads_of heads.now.procs.now)) (acts_of stmts.now) }
{
    for stmt in stmts.as_slice() {
        statement(heads, count, stmt)?;
    }
    Ok(())
}

#[cycle(block)]
fn statement(heads: &Heads, count: usize, stmt: &Stmt) -> Result<(), ProcFault>
    ensures { result_err result ≡ act_fault (take count (heads_of heads.now.procs.now)) (act_of stmt.now) }
{
    match stmt {
        Stmt::Set(name, value) => {
            word(name)?;
            expression(value)
        }
        Stmt::SetItem(name, index, value) => {
            word(name)?;
            expression(index)?;
            expression(value)
        }
        Stmt::Append(name, value) => {
            word(name)?;
            expression(value)
        }
        Stmt::Take(name, from) => {
            word(name)?;
            word(from)
        }
        Stmt::Clear(name) => word(name),
        Stmt::Do(name, args) => {
            word(name)?;
            arguments(args.as_slice())
        }
        Stmt::If(test, body, None) => {
            expression(test)?;
            block(heads, count, body)
        }
        Stmt::If(test, body, Some(other)) => {
            expression(test)?;
            block(heads, count, body)?;
            block(heads, count, other)
        }
        Stmt::For(head, body, next) => {
            word(&head.var)?;
            expression(&head.from)?;
            expression(&head.to)?;
            block(heads, count, body)?;
            word(next)
        }
        Stmt::While(test, body) => {
            expression(test)?;
            block(heads, count, body)
        }
        Stmt::Run(name, args) => call(heads, count, name, args),
    }
}

// Checks a `do`: its procedure's name, and its number of arguments.
fn call(heads: &Heads, count: usize, name: &Word, args: &Args) -> Result<(), ProcFault>
    ensures { result_err result ≡ call_name_fault (take count (heads_of heads.now.procs.now)) name.now (trees_of args.now) }
{
    word(name)?;
    let Some(parameters) = heads.parameters(count, &name.name) else {
        return Err(ProcFault::NoProc {
            name: name.name.copy(),
            place: name.place,
        });
    };
    if parameters != args.len() {
        return Err(ProcFault::Params { place: name.place });
    }
    arguments(args.as_slice())
}
