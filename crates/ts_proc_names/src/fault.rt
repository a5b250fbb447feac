//! Why a script with procedures is refused.

use mate_num::{Name, NoMemory};

/// Why a script with procedures is refused. A place is the offset in bytes of a word's first byte in the source.
///
/// The text comes first, with the first of its faults; then the names, from left to right by place. At one name
/// `Reserved` comes before `NoProc` and `Again`, and these before `Params`. Then comes the size of the expansion, and
/// last its depth.
#[derive(Drop)]
pub enum ProcFault {
    /// A byte that begins no token, the 17th byte of a name, or a letter or `_` directly after a literal.
    BadByte { place: u32 },
    /// A literal over 65535 begins here.
    BigLiteral { place: u32 },
    /// The tokens before this one begin some script with procedures, and with it they begin none. If the text ends
    /// too early, `place` is the text's length.
    Unexpected { place: u32 },
    /// The tokens up to this one begin some script with procedures, and it opens a block inside 32 open ones, or is the
    /// 65th counted token of a part of a statement.
    TooDeep { place: u32 },
    /// The procedure that the `do` at `place` names isn't declared before it.
    NoProc { name: Name, place: u32 },
    /// The procedure that is named at `place` takes another number of arguments.
    Params { place: u32 },
    /// The name of the procedure or of the parameter at `place` is that of an earlier procedure, or of an earlier
    /// parameter of the same head.
    Again { name: Name, place: u32 },
    /// The name at `place` begins with `_`.
    Reserved { place: u32 },
    /// The expansion has more than 10,000 statements: `count`, which stops at 1,000,000.
    TooLarge { count: u32 },
    /// The blocks of the expansion nest more than 32 deep: `depth`.
    TooNested { depth: u32 },
    /// Memory was refused.
    NoMemory,
}

impl From<NoMemory> for ProcFault {
    ghost use Rattle.std.specs.Prelude.{◌≡◌};
    ghost use Rattle.ts_proc_names.specs.declared.fault.ProcFault.TheVariants.{NoMemory};

    ghost from_gives = { λ _ fault. fault ≡ NoMemory };

    fn from(_error: NoMemory) -> ProcFault {
        ProcFault::NoMemory
    }
}
