//! A compiled source that several programs share.

ghost use Rattle.std.specs.Prelude.{◌≡◌, ◌≤◌, ◌<◌, ℕ, Bool, List, length, IfOk};
ghost use Rattle.command_steps.specs.SourceCode.{IsCompiledOf};
ghost use Rattle.command_steps.specs.Steps.{obtained};
ghost use Rattle.node_programs.specs.Right.{IsRightProgram};
ghost use Rattle.command_programs.specs.Programs.{IsInstalled};
ghost use Rattle.ts_checked.specs.Statement.{Block};
ghost use Rattle.ts_checker.specs.Accepted.{IsAccepted};
ghost use Rattle.vm_shape.specs.Shapes.{shape_of};

use crate::image::stored_in_place;
use capsule_codec::CapsuleRef;
use command_refusals::Refusal;
use command_steps::CompiledScript;
use mate_journal::StoredProgram;
use mate_num::HandlerId;
use std::alloc::Global;
use std::marker::Model;
use std::rc::Rc;
use vm_shape::Description;

/// A compiled script, which is kept once for all that it is known for. Contracts see the compiled script.
#[derive(Drop)]
pub struct SharedSource {
    compiled: Rc<CompiledScript>,
}

impl Model for SharedSource {
    ghost use Rattle.std.specs.Coded.{codes};
    ghost use Rattle.ts_checked.specs.TreeCode.{coded_script};
    ghost use Rattle.command_steps.specs.declared.code.CompiledScript.{CompiledScript as Compiled};

    ghost Value = { Compiled };

    ghost coded = { Prim.hlevel (codes, coded_script) };

    ghost view = { λ s. s.compiled.value };
}

impl SharedSource {
    /// The compiled script, with one owner.
    pub fn new(alloc: Global, compiled: CompiledScript) -> Result<SharedSource, Refusal>
        ensures { obtained (λ shared. shared ≡ compiled) result }
    {
        match Rc::new(alloc, compiled) {
            Ok(compiled) => Ok(SharedSource { compiled }),
            Err(_) => Err(Refusal::NoMemory),
        }
    }

    /// The same source, with one more owner.
    pub fn share(&self) -> Result<SharedSource, Refusal>
        ensures { obtained (λ shared. shared ≡ self.now) result }
    {
        match self.compiled.clone() {
            Ok(compiled) => Ok(SharedSource { compiled }),
            Err(_) => Err(Refusal::NoMemory),
        }
    }

    /// The program that it gives for a handler of the machine, with a version.
    #[inline(never)]
    pub fn program(
        self,
        alloc: Global,
        desc: &Description,
        handler: HandlerId,
        version: u32,
    ) -> Result<StoredProgram, Refusal>
        requires handler { handler.0 < length desc.now.handlers.items }
        requires version { 1 ≤ version }
        requires filled { 1 ≤ length self.code.items }
        ensures installed { obtained (IsInstalled desc.now handler version self) result }
        ensures right { (fold : Bool) (bytes : List ℕ) (tree : Block) → IsAccepted desc.now bytes tree
            → IsCompiledOf (shape_of desc.now) fold tree self → IfOk result (IsRightProgram desc.now) }
    {
        let SharedSource { compiled } = self;
        let CompiledScript { script, code } = compiled.as_ref();
        let capsule = CapsuleRef {
            vm_id: desc.vm_id,
            handler,
            version,
            code: code.as_slice(),
        };
        let image = stored_in_place(alloc, &capsule)?;
        Ok(StoredProgram::compiled(handler, version, script, image))
    }
}
