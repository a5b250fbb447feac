//! Scripts with procedures whose names pass.

ghost use Rattle.std.specs.Prelude.{◌<◌, ◌^◌, IsTrue, is_none};
ghost use Rattle.ts_trees.specs.Seen.{procedure_source_of};
ghost use Rattle.ts_proc_names.specs.Heads.{parameter_count};
ghost use Rattle.ts_proc_names.specs.NameFaults.{name_fault};

use crate::calls;
use crate::fault::ProcFault;
use std::alloc::Global;
use ts_trees::{Decls, PBlock, ProcScript, Procs};

/// A script with procedures. The type says that each `do` names a procedure that is declared before it and gives it as
/// many arguments as it has parameters, that no two procedures and no two parameters of one head share a name, that no
/// name begins with `_`, and that there are fewer than 2^32 parameters.
pub struct PScript {
    script: ProcScript,
    pub ghost named: { IsTrue (is_none (name_fault (procedure_source_of script))) },
    pub ghost few: { parameter_count (procedure_source_of script).procs < 2 ^ 32 },
}

/// All that has to be dropped is dropped in one function, so each place at which a script ends has one call.
impl Drop for PScript {
    fn drop(self) {
        let PScript { script: _script } = self;
    }
}

impl PScript {
    ghost use Rattle.std.specs.Prelude.{◌≡◌, map};
    ghost use Rattle.ts_trees.specs.Seen.{procedure_of, acts_of};
    ghost use Rattle.ts_proc_names.specs.Named.{written_of, IsNamedScript};

    /// The script if its names pass, else the first refusal: `NoProc`, `Params`, `Again` or `Reserved`. `NoMemory`
    /// may come instead of either.
    pub fn new(alloc: Global, script: ProcScript) -> Result<PScript, ProcFault>
        requires { parameter_count (procedure_source_of script).procs < 2 ^ 32 }
        ensures { IsNamedScript (procedure_source_of script) result }
    {
        calls::script(alloc, &script)?;
        Ok(PScript { script })
    }

    pub fn decls(&self) -> &Decls
        ensures { result.now ≡ (written_of self.now).decls }
    {
        &self.script.decls
    }

    pub fn procs(&self) -> &Procs
        ensures { map procedure_of result.now ≡ (written_of self.now).procs }
    {
        &self.script.procs
    }

    pub fn body(&self) -> &PBlock
        ensures { acts_of result.now ≡ (written_of self.now).body }
    {
        &self.script.body
    }
}
