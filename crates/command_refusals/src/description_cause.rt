//! Why a description is refused, as the program says it.

ghost use Rattle.std.specs.Prelude.{◌≡◌, ◌++◌, ⊤, MatchOption, codes, decimal};
ghost use Rattle.mate_files.specs.Pen.{Prints};
ghost use Rattle.command_refusals.specs.DescriptionCauses.{description_words, fault_told};

use crate::line_ends::print_about;
use mate_files::{Pen, Sink};
use mate_num::Name;
use vm_shape::{DescFault, Key};

/// The first thing that is wrong with a description's text: any `DescFault` but `NoMemory`.
#[derive(Drop)]
pub enum DescriptionCause {
    NotToml,
    BadField { key: Key },
    /// The list of `key` is too long.
    OverLimit { key: Key },
    Duplicate { name: Name },
    /// A round of all handlers' packets needs `need` ms, but the longest interval has `have` ms.
    SlowImax { need: u64, have: u64 },
}

impl DescriptionCause {
    /// What is wrong with a description that is refused with this fault; None for `NoMemory`.
    pub fn of(fault: DescFault) -> Option<DescriptionCause>
        ensures { MatchOption result ⊤ (λ why. fault ≡ fault_told why) }
    {
        match fault {
            DescFault::NotToml => Some(DescriptionCause::NotToml),
            DescFault::BadField { key } => Some(DescriptionCause::BadField { key }),
            DescFault::OverLimit { key } => Some(DescriptionCause::OverLimit { key }),
            DescFault::Duplicate { name } => Some(DescriptionCause::Duplicate { name }),
            DescFault::SlowImax { need, have } => Some(DescriptionCause::SlowImax { need, have }),
            DescFault::NoMemory => None,
        }
    }

    /// Prints what is wrong, and a line feed.
    pub fn print<E: Sink>(&self, pen: &mut Pen, err: &mut E)
        ensures { Prints (E.written err.old) (E.faults err.old) pen.old.result (E.written err.new) (E.faults err.new) pen.new.result
            (description_words self.now) }
    {
        match self {
            DescriptionCause::NotToml => pen.text(err, "toml\n"),
            DescriptionCause::BadField { key } => print_about(pen, err, "field ", key.word()),
            DescriptionCause::OverLimit { key } => print_about(pen, err, "limit ", key.word()),
            DescriptionCause::Duplicate { name } => print_about(
                pen,
                err,
                "duplicate ",
                name.as_str(),
            ),
            DescriptionCause::SlowImax { need, have } => print_slow(pen, err, *need, *have),
        }
    }
}

fn print_slow<E: Sink>(pen: &mut Pen, err: &mut E, need: u64, have: u64)
    ensures { Prints (E.written err.old) (E.faults err.old) pen.old.result (E.written err.new) (E.faults err.new) pen.new.result
        (codes "slow " ++ decimal need ++ codes " " ++ decimal have ++ codes "\n") }
{
    pen.text(err, "slow ");
    pen.number(err, need);
    pen.text(err, " ");
    pen.number(err, have);
    pen.text(err, "\n");
}
