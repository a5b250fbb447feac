//! Names that exclude wrong bodies of `PScript::new`, `Heads` and `NameTable`.

ghost use Rattle.std.specs.Prelude.{◌≡◌, [], ◌∷◌, codes, map, Some, None, IfOk};
ghost use Rattle.ts_trees.specs.Seen.{procedure_source_of};
ghost use Rattle.ts_proc_names.specs.Heads.{heads_of};
ghost use Rattle.ts_proc_names.specs.Passing.{NamesPass};
ghost use Rattle.callers_language.specs.Procedures.{missing_argument, reserved_name};

use mate_num::{Name, NoMemory};
use std::alloc::Global;
use ts_proc_names::{Heads, NameTable, PScript, ProcFault};
use ts_trees::{ProcScript, Word};

pub fn a_missing_argument_is_refused(
    alloc: Global,
    script: ProcScript,
) -> Result<PScript, ProcFault>
    requires { procedure_source_of script ≡ missing_argument }
    ensures { NamesPass result (Some (ProcFault.Params 3)) }
{
    PScript::new(alloc, script)
}

pub fn a_reserved_name_is_refused(alloc: Global, script: ProcScript) -> Result<PScript, ProcFault>
    requires { procedure_source_of script ≡ reserved_name }
    ensures { NamesPass result (Some (ProcFault.Reserved 0)) }
{
    PScript::new(alloc, script)
}

pub fn a_later_procedure_is_unknown(heads: &Heads, name: &Name) -> Option<usize>
    requires { heads_of heads.now.procs.now ≡ (name.now, 1) ∷ [] }
    ensures { result ≡ None }
{
    heads.parameters(0, name)
}

pub fn a_third_name_has_its_place(
    alloc: Global,
    words: &[Word],
    name: &Name,
) -> Result<Option<usize>, NoMemory>
    requires words { map (λ w. w.name) words.now ≡ codes "a" ∷ codes "b" ∷ codes "c" ∷ [] }
    requires name { name.now ≡ codes "c" }
    ensures { IfOk result (λ place. place ≡ Some 2) }
{
    let table = NameTable::of_words(alloc, words)?;
    Ok(table.get(name))
}
