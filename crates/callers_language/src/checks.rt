//! Sources and names that exclude wrong bodies of `check` and of a `Scope`.

ghost use Rattle.std.specs.Prelude.{◌≡◌, [], ◌∷◌, negsuc, codes, IfOk, IsOkAnd, IsErrAnd, Ok, Err, None, Some, true};
ghost use Rattle.ts_checked.specs.Checked.{checked_tree};
ghost use Rattle.ts_trees.specs.Seen.{source_seen};
ghost use Rattle.ts_trees.specs.Tree.{no_acts, act_then, clear, number};
ghost use Rattle.ts_checker.specs.Answer.{GivesChecked};
ghost use Rattle.ts_checker.specs.Names.{names_before};
ghost use Rattle.ts_checker.specs.Seen.{scope_names};
ghost use Rattle.callers_language.specs.Scripts.{with_step};
ghost use Rattle.callers_language.specs.Sources.{word, actuator, private_entry, nine_privates, calling_f, for_x, f_in_the_limit};

use std::alloc::Global;
use ts_checked::{CVar, Checked};
use ts_checker::{CheckFault, Scope, check};
use ts_trees::{Decl, Script, Word};
use vm_shape::Description;

pub fn an_undeclared_name_is_refused(
    alloc: Global,
    desc: &Description,
    script: &Script,
    word: &Word,
) -> Result<Checked, CheckFault>
    requires { source_seen script.now ≡ record { decls = []; body = act_then (clear word.now) no_acts } }
    ensures { IfOk result (λ _. ⊥) }
{
    check(alloc, desc, script)
}

pub fn a_missing_argument_is_refused(
    alloc: Global,
    desc: &Description,
    script: &Script,
) -> Result<Checked, CheckFault>
    requires functions { desc.now.functions.items ≡ actuator (codes "f") 1 ∷ [] }
    requires script { source_seen script.now ≡ calling_f }
    ensures { GivesChecked checked_tree result (Err (CheckFault.Arity 0)) }
{
    check(alloc, desc, script)
}

pub fn a_call_in_a_limit_is_refused(
    alloc: Global,
    desc: &Description,
    script: &Script,
) -> Result<Checked, CheckFault>
    requires functions { desc.now.functions.items ≡ actuator (codes "f") 0 ∷ [] }
    requires script { source_seen script.now ≡ for_x f_in_the_limit None }
    ensures { GivesChecked checked_tree result (Err (CheckFault.Kind 24)) }
{
    check(alloc, desc, script)
}

pub fn a_step_keeps_its_sign(
    alloc: Global,
    desc: &Description,
    script: &Script,
) -> Result<Checked, CheckFault>
    requires { source_seen script.now ≡ for_x (number 0) (Some record { minus = true; size = 1; place = 32 }) }
    ensures { GivesChecked checked_tree result (Ok (with_step (CVar.Private 0) (negsuc 0))) }
{
    check(alloc, desc, script)
}

pub fn an_undeclared_name_is_told_with_its_place(
    scope: &Scope,
    word: &Word,
) -> Result<CVar, CheckFault>
    requires { (scope_names scope.now).declared ≡ [] }
    ensures { result ≡ Err (CheckFault.Undeclared word.now.name word.now.place) }
{
    scope.variable(word)
}

pub fn another_variable_closes_no_for(
    scope: &Scope,
    variable: &Word,
    next: &Word,
) -> Result<(), CheckFault>
    requires declared { (scope_names scope.now).declared ≡ private_entry (codes "x") 0 ∷ private_entry (codes "y") 1 ∷ [] }
    requires variable { variable.now ≡ word (codes "x") 15 }
    requires next { next.now ≡ word (codes "y") 29 }
    ensures { result ≡ Err (CheckFault.Kind 29) }
{
    scope.closes(variable, next)
}

pub fn a_ninth_private_is_refused<'a>(
    desc: &'a Description,
    decls: &[Decl],
) -> Result<Scope<'a>, CheckFault>
    requires { decls.now ≡ nine_privates }
    ensures { IsErrAnd result (λ fault. fault ≡ CheckFault.TooManyPrivates) }
{
    Scope::of(desc, decls)
}

pub fn no_declarations_take_no_memory<'a>(
    desc: &'a Description,
    decls: &[Decl],
) -> Result<Scope<'a>, CheckFault>
    requires { decls.now ≡ [] }
    ensures { IsOkAnd result (λ scope. scope_names scope ≡ names_before desc.now) }
{
    Scope::of(desc, decls)
}
