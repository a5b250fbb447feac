//! The grant rule at an entry.

ghost use Rattle.std.specs.Prelude.{◌≡◌, false};
ghost use Rattle.audit_programs.specs.Trials.{HasReadUpTo};

use audit_programs::{ReadyRoll, Trial};
use mate_journal::Entry;
use report_audit::is_granted;

/// Starts in a row rise.
pub fn a_start_of_an_equal_number_is_not_granted(
    trial: &Trial,
    roll: &ReadyRoll,
    place: usize,
    inv: u32,
) -> bool
    requires { HasReadUpTo trial.now place roll.now }
    ensures { result ≡ false }
{
    is_granted(trial, roll, place, inv, &Entry::Start { inv })
}
