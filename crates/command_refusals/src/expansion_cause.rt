//! Why a source with procedures has no expansion, as the program says it.

ghost use Rattle.std.specs.Prelude.{◌≡◌, MatchOption};
ghost use Rattle.mate_files.specs.Pen.{Prints};
ghost use Rattle.ts_proc_names.specs.declared.fault.ProcFault.TheVariants.{NoMemory};
ghost use Rattle.command_refusals.specs.ExpansionCauses.{expansion_fault, expansion_words};

use crate::line_ends::{print_numbered, print_numbered_name};
use crate::spelling_cause::SpellingCause;
use mate_files::{Pen, Sink};
use mate_num::Name;
use ts_proc_names::ProcFault;

/// The first thing that is wrong with a source with procedures: any `ProcFault` but `NoMemory`. A place is an offset in bytes.
#[derive(Drop)]
pub enum ExpansionCause {
    /// The text spells no script with procedures.
    Spelling(SpellingCause),
    /// No procedure of this name is declared before the `do`.
    NoProc { name: Name, place: u32 },
    /// The procedure there takes another number of arguments.
    Params { place: u32 },
    /// A procedure or a parameter of the same head has the name already.
    Again { name: Name, place: u32 },
    /// The name there begins with `_`.
    Reserved { place: u32 },
    /// The expansion has more than 10,000 statements: `count`, which stops at 1,000,000.
    TooLarge { count: u32 },
    /// The expansion's blocks nest more than 32 deep: `depth`.
    TooNested { depth: u32 },
}

impl ExpansionCause {
    /// What is wrong with a source that is refused with this fault; None for `NoMemory`.
    pub fn of(fault: ProcFault) -> Option<ExpansionCause>
        ensures { MatchOption result (fault ≡ NoMemory) (λ why. fault ≡ expansion_fault why) }
    {
        match fault {
            ProcFault::BadByte { place } => Some(ExpansionCause::Spelling(SpellingCause::BadByte {
                place,
            })),
            ProcFault::BigLiteral { place } => Some(ExpansionCause::Spelling(
                SpellingCause::BigLiteral { place },
            )),
            ProcFault::Unexpected { place } => Some(ExpansionCause::Spelling(
                SpellingCause::Unexpected { place },
            )),
            ProcFault::TooDeep { place } => Some(ExpansionCause::Spelling(SpellingCause::TooDeep {
                place,
            })),
            ProcFault::NoProc { name, place } => Some(ExpansionCause::NoProc { name, place }),
            ProcFault::Params { place } => Some(ExpansionCause::Params { place }),
            ProcFault::Again { name, place } => Some(ExpansionCause::Again { name, place }),
            ProcFault::Reserved { place } => Some(ExpansionCause::Reserved { place }),
            ProcFault::TooLarge { count } => Some(ExpansionCause::TooLarge { count }),
            ProcFault::TooNested { depth } => Some(ExpansionCause::TooNested { depth }),
            ProcFault::NoMemory => None,
        }
    }

    /// Prints what is wrong, with its name and place or its number, and a line feed.
    pub fn print<E: Sink>(&self, pen: &mut Pen, err: &mut E)
        ensures { Prints (E.written err.old) (E.faults err.old) pen.old.result (E.written err.new) (E.faults err.new) pen.new.result
            (expansion_words self.now) }
    {
        match self {
            ExpansionCause::Spelling(cause) => cause.print(pen, err),
            ExpansionCause::NoProc { name, place } => print_numbered_name(
                pen, err, "noproc ", name, *place,
            ),
            ExpansionCause::Params { place } => print_numbered(pen, err, "params ", *place),
            ExpansionCause::Again { name, place } => print_numbered_name(
                pen, err, "again ", name, *place,
            ),
            ExpansionCause::Reserved { place } => print_numbered(pen, err, "reserved ", *place),
            ExpansionCause::TooLarge { count } => print_numbered(pen, err, "large ", *count),
            ExpansionCause::TooNested { depth } => print_numbered(pen, err, "nested ", *depth),
        }
    }
}
