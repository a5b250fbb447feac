//! Why a line isn't read.

use mate_num::NoMemory;
use script_steps::Cause;

/// Why a line isn't read.
#[derive(Clone, Copy)]
pub enum Refusal {
    Bad(Cause),
    NoMemory,
}

impl From<Cause> for Refusal {
    ghost use Rattle.std.specs.Prelude.{◌≡◌};
    ghost use Rattle.script_reader.specs.declared.refusal.Refusal.TheVariants.{Bad};

    ghost from_gives = { λ cause refusal. refusal ≡ Bad cause };

    fn from(cause: Cause) -> Refusal {
        Refusal::Bad(cause)
    }
}

impl From<NoMemory> for Refusal {
    ghost use Rattle.std.specs.Prelude.{◌≡◌};
    ghost use Rattle.script_reader.specs.declared.refusal.Refusal.TheVariants as refusals;

    ghost from_gives = { λ _ refusal. refusal ≡ refusals.NoMemory };

    fn from(_error: NoMemory) -> Refusal {
        Refusal::NoMemory
    }
}
