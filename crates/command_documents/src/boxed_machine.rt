//! A machine on the heap.

ghost use Rattle.std.specs.Prelude.{◌≡◌, IfSome};
ghost use Rattle.command_steps.specs.Parts.{ReadsFiles, machine};

use command_refusals::Refusal;
use command_steps::machine_of;
use mate_files::Files;
use std::alloc::Global;
use std::marker::Model;
use vm_shape::Description;

/// A machine's description on the heap: it is too large to be moved on the stack. Contracts see the description.
#[derive(Drop)]
pub struct BoxedMachine {
    held: Box<Description>,
}

impl Model for BoxedMachine {
    ghost use Rattle.vm_shape.specs.declared.description.Description.{Description};

    ghost Value = { Description };

    ghost view = { λ m. m.held.value };
}

impl BoxedMachine {
    /// The machine that a word names.
    pub fn named<F: Files>(
        alloc: Global,
        files: &mut F,
        word: &str,
    ) -> Result<BoxedMachine, Refusal>
        ensures does { machine (record { told = F.contents files.old; steady = F.steady files.old }) word.now result }
        ensures reads { ReadsFiles (F.contents files.old) (F.steady files.old) (F.faults files.old) (F.contents files.new)
            (F.steady files.new) (F.faults files.new) result }
    {
        match machine_of(alloc, files, word) {
            Ok(description) => match boxed(alloc, description) {
                Some(machine) => Ok(machine),
                None => Err(Refusal::NoMemory),
            },
            Err(refusal) => Err(refusal),
        }
    }

    /// Its description.
    pub fn description(&self) -> &Description
        ensures { result.now ≡ self.now }
    {
        &self.held
    }
}

/// It isn't inlined, as what it moves is large. None if memory runs out.
#[inline(never)]
fn boxed(alloc: Global, description: Description) -> Option<BoxedMachine>
    ensures { IfSome result (λ m. m ≡ description) }
{
    match Box::new(alloc, description) {
        Ok(held) => Some(BoxedMachine { held }),
        Err(_) => None,
    }
}
