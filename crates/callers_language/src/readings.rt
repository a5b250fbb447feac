//! Sources that exclude a wrong body of `read` of `ts_parser`.

ghost use Rattle.std.specs.Prelude.{◌≡◌, ◌⊎◌, MatchResult};
ghost use Rattle.ts_parser.specs.declared.fault.SourceFault.TheVariants.{Unexpected, NoMemory};

use std::alloc::Global;
use ts_parser::{SourceFault, read, verdict_law};
use ts_trees::Script;
use ts_trees::machine::machine_law;

/// Where a source ends too early, its end is told.
pub fn an_early_end_is_told_at_its_place(alloc: Global) -> Result<Script, SourceFault>
    ensures { MatchResult result (λ _. ⊥) (λ fault. (fault ≡ Unexpected 6) ⊎ (fault ≡ NoMemory)) }
{
    machine_law();
    verdict_law();
    read(alloc, b"shared")
}
