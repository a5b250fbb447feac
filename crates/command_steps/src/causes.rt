//! From the refusal of a source's text to its cause.

ghost use Rattle.std.specs.Prelude.{ℕ, List, ⊤, MatchOption};
ghost use Rattle.vm_shape.specs.declared.description.Description.{Description as DescriptionValue};
ghost use Rattle.command_steps.specs.Answers.{IsRefused, IsMisspelt, IsUnmeant};
ghost use Rattle.command_refusals.specs.SourceCauses.{IsBadSource};

use crate::SourceRefusal;
use command_refusals::{SourceCause, SpellingCause};
use ts_checker::CheckFault;
use ts_parser::SourceFault;

/// What is wrong with a source that is refused with this refusal; None for `NoMemory`.
pub(crate) fn source_cause(refusal: SourceRefusal) -> Option<SourceCause>
    ensures { (d : DescriptionValue) (bytes : List ℕ) → IsRefused d bytes refusal → MatchOption result ⊤ (IsBadSource d bytes) }
{
    match refusal {
        SourceRefusal::Spelling(fault) => spelling_cause(fault),
        SourceRefusal::Meaning(fault) => meaning_cause(fault),
    }
}

fn spelling_cause(fault: SourceFault) -> Option<SourceCause>
    ensures { (d : DescriptionValue) (bytes : List ℕ) → IsMisspelt d bytes fault → MatchOption result ⊤ (IsBadSource d bytes) }
{
    match fault {
        SourceFault::BadByte { place } => Some(SourceCause::Spelling(SpellingCause::BadByte {
            place,
        })),
        SourceFault::BigLiteral { place } => Some(SourceCause::Spelling(SpellingCause::BigLiteral {
            place,
        })),
        SourceFault::Unexpected { place } => Some(SourceCause::Spelling(SpellingCause::Unexpected {
            place,
        })),
        SourceFault::TooDeep { place } => Some(SourceCause::Spelling(SpellingCause::TooDeep {
            place,
        })),
        SourceFault::NoMemory => None,
    }
}

fn meaning_cause(fault: CheckFault) -> Option<SourceCause>
    ensures { (d : DescriptionValue) (bytes : List ℕ) → IsUnmeant d bytes fault → MatchOption result ⊤ (IsBadSource d bytes) }
{
    match fault {
        CheckFault::Undeclared { name, place } => Some(SourceCause::Undeclared { name, place }),
        CheckFault::NotInVm { name } => Some(SourceCause::NotInVm { name }),
        CheckFault::Twice { name } => Some(SourceCause::Twice { name }),
        CheckFault::Kind { place } => Some(SourceCause::Kind { place }),
        CheckFault::Arity { place } => Some(SourceCause::Arity { place }),
        CheckFault::TooManyPrivates => Some(SourceCause::TooManyPrivates),
        CheckFault::NoMemory => None,
    }
}
