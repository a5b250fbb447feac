//! Why a source is refused for a machine.

use ts_checker::CheckFault;
use ts_parser::SourceFault;

/// The first refusal of a source: its bytes come before its grammar, and its grammar before the checks of its script.
#[derive(Drop)]
pub enum SourceRefusal {
    /// The bytes spell no script.
    Spelling(SourceFault),
    /// The script means nothing on the machine.
    Meaning(CheckFault),
}

impl From<SourceFault> for SourceRefusal {
    ghost use Rattle.std.specs.Prelude.{◌≡◌};
    ghost use Rattle.command_steps.specs.declared.refusal.SourceRefusal.TheVariants.{Spelling};

    ghost from_gives = { λ fault refusal. refusal ≡ Spelling fault };

    fn from(fault: SourceFault) -> SourceRefusal {
        SourceRefusal::Spelling(fault)
    }
}
