//! The grant rule at one entry of a journal.

ghost use Rattle.std.specs.Prelude.{◌≡◌};
ghost use Rattle.mate_journal.specs.Grants.{started_number as started_by_entry};
ghost use Rattle.mate_journal.specs.Journal.{journal_entry};
ghost use Rattle.mate_journal.specs.Log.{Log};
ghost use Rattle.audit_rules.specs.Granting as told;
ghost use Rattle.audit_rules.specs.Tests.{conflict_of};
ghost use Rattle.audit_rules.specs.Views.{roll_in};
ghost use Rattle.audit_programs.specs.Trials.{HasReadUpTo};

use crate::waiting::{all_held_back, is_free_to_start};
use audit_programs::{ReadyRoll, Trial};
use mate_journal::Entry;

/// The number of the invocation that the entry starts, 0 for none.
pub fn start_of(entry: &Entry) -> u32
    ensures { (l : Log) → result ≡ started_by_entry (journal_entry l entry.now) }
{
    match entry {
        Entry::Start { inv } => *inv,
        _ => 0,
    }
}

/// Whether the entry keeps the grant rule: at a start the invocation isn't held back, and has a higher number than the one that the
/// entry before started, if it started one; at another entry each queued one is held back.
pub fn is_granted(trial: &Trial, roll: &ReadyRoll, place: usize, last: u32, entry: &Entry) -> bool
    requires { HasReadUpTo trial.now place roll.now }
    ensures { let l = trial.now.log.now in
        result ≡ told.is_granted (conflict_of trial.now.desc.now) (roll_in l.images roll.now.roll) last (journal_entry l entry.now) }
{
    let _place = place;
    match entry {
        Entry::Start { inv } => is_free_to_start(trial, roll, *inv) && last < *inv,
        _ => all_held_back(trial, roll),
    }
}
