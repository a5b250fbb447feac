//! A program that several nodes hold.

ghost use Rattle.std.specs.Prelude.{◌≡◌, IfOk};

use crate::handlers::Held;
use mate_num::NoMemory;
use std::alloc::Global;
use std::marker::Model;
use std::rc::Rc;

/// A program as it is installed, which is in one place for all nodes that hold it. Contracts see the program.
#[derive(Drop)]
pub struct SharedHeld {
    held: Rc<Held>,
}

impl Model for SharedHeld {
    ghost use Rattle.node_state.specs.declared.handlers.Held.{Held as HeldProgram};

    ghost Value = { HeldProgram };

    ghost view = { λ s. s.held.value };
}

impl SharedHeld {
    /// The program, with one owner.
    pub fn new(alloc: Global, held: Held) -> Result<SharedHeld, NoMemory>
        ensures { IfOk result (λ shared. shared ≡ held) }
    {
        match Rc::new(alloc, held) {
            Ok(held) => Ok(SharedHeld { held }),
            Err(_) => Err(NoMemory),
        }
    }

    /// The same program for one owner more. `NoMemory` comes only if a machine word doesn't count the owners.
    pub fn share(&self) -> Result<SharedHeld, NoMemory>
        ensures { IfOk result (λ shared. shared ≡ self.now) }
    {
        match self.held.clone() {
            Ok(held) => Ok(SharedHeld { held }),
            Err(_) => Err(NoMemory),
        }
    }

    pub fn as_held(&self) -> &Held
        ensures { result.now ≡ self.now }
    {
        self.held.as_ref()
    }
}
