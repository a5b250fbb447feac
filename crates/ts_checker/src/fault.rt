//! Why a script is refused.

use mate_num::{Name, NoMemory};
use std::alloc::AllocFailed;

/// Why a script is refused for a machine. Declarations come first, and then the statements, word by word
/// from left to right; of several refusals the first is given. A place is the offset in bytes of a word's
/// first byte in the source.
#[derive(Drop)]
pub enum CheckFault {
    /// The name at `place`, of a variable or a buffer, isn't declared; or it comes after `do`, and a machine has no procedures.
    Undeclared { name: Name, place: u32 },
    /// The machine has no shared variable, no buffer or no function of this name.
    NotInVm { name: Name },
    /// The name is declared twice.
    Twice { name: Name },
    /// The word at `place` is of another kind than is wanted there: a buffer's name where a number is wanted, or a
    /// number's name where a buffer is; the function of a call in the limit of a `for`, or of a call whose one
    /// argument has to be a name alone; a step of 0 or over 32,767; the name after `next` if it isn't its `for`'s
    /// variable.
    Kind { place: u32 },
    /// The function at `place` takes another number of arguments. It comes after the function's other
    /// refusals, and before those of its arguments.
    Arity { place: u32 },
    /// A ninth private variable is declared.
    TooManyPrivates,
    /// Memory was refused.
    NoMemory,
}

impl From<NoMemory> for CheckFault {
    ghost use Rattle.std.specs.Prelude.{◌≡◌};
    ghost use Rattle.ts_checker.specs.declared.fault.CheckFault.TheVariants.{NoMemory};

    ghost from_gives = { λ _ fault. fault ≡ NoMemory };

    fn from(_error: NoMemory) -> CheckFault {
        CheckFault::NoMemory
    }
}

impl<T: Drop> From<AllocFailed<T>> for CheckFault {
    ghost use Rattle.std.specs.Prelude.{◌≡◌};
    ghost use Rattle.ts_checker.specs.declared.fault.CheckFault.TheVariants.{NoMemory};

    ghost from_gives = { λ _ fault. fault ≡ NoMemory };

    fn from(_error: AllocFailed<T>) -> CheckFault {
        CheckFault::NoMemory
    }
}
