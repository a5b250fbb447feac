//! Sources that exclude a wrong body of `read` of `ts_procs`.

ghost use Rattle.std.specs.Prelude.{◌≡◌, ◌⊎◌, ◌≤◌, length, MatchResult};
ghost use Rattle.mate_files.specs.declared.files.TheConstants.{FILE_MAX};
ghost use Rattle.ts_proc_names.specs.declared.fault.ProcFault.TheVariants.{TooDeep, NoMemory};
ghost use Rattle.ts_proc_texts.specs.Reading.{IsDeepAt};

use std::alloc::Global;
use ts_procs::{PScript, ProcFault, read, reading_law};

pub fn a_source_that_is_too_deep_is_told_so(
    alloc: Global,
    bytes: &[u8],
    place: u32,
) -> Result<PScript, ProcFault>
    requires short { length bytes.now ≤ FILE_MAX }
    requires deep { IsDeepAt bytes.now place }
    ensures { MatchResult result (λ _. ⊥) (λ fault. (fault ≡ TooDeep place) ⊎ (fault ≡ NoMemory)) }
{
    reading_law();
    read(alloc, bytes)
}
