//! Stores seen at one entry of a journal.

ghost use Rattle.std.specs.Prelude.{◌≡◌, length, IfOk, OnOk};
ghost use Rattle.std.specs.List.{All};
ghost use Rattle.mate_journal.specs.Journal.{journal_entry};
ghost use Rattle.journal_laws.specs.Growth.{IsNamedBelow};
ghost use Rattle.audit_rules.specs.Shown as told;
ghost use Rattle.audit_rules.specs.Shown.{HasLengthsOf};
ghost use Rattle.audit_rules.specs.Views.{roll_in};
ghost use Rattle.audit_programs.specs.Trials.{IsTried, IsSeatReady, machine_for};
ghost use Rattle.audit_programs.specs.Kept.{AreKept};

use crate::showing::is_store_shown;
use audit_programs::{KeptRuns, ReadyRoll, Trial};
use mate_journal::Entry;
use mate_num::{NoMemory, Store};
use std::alloc::Global;

/// Whether the store that the entry shows, if it shows one, is what follows from the journal.
pub fn shows_right<'a>(
    alloc: Global,
    trial: &Trial,
    roll: &ReadyRoll<'a>,
    runs: &mut KeptRuns<'a>,
    store: &Store,
    entry: &Entry,
) -> Result<bool, NoMemory>
    requires tried { IsTried trial.now }
    requires ready { All (IsSeatReady trial.now roll.now) roll.now.roll.seats.items }
    requires lengths { HasLengthsOf (machine_for trial.now) store.now }
    requires named { let l = trial.now.log.now in
        IsNamedBelow (length l.images) (length l.stores) entry.now }
    requires runs { AreKept trial.now.desc.now runs.old }
    ensures shown { let l = trial.now.log.now in
        IfOk result (λ b. b ≡ told.shows_right (machine_for trial.now) (roll_in l.images roll.now.roll)
        store.now (journal_entry l entry.now)) }
    ensures runs { OnOk result (AreKept trial.now.desc.now runs.new) }
{
    let Entry::Seen { store: number } = entry else {
        return Ok(true);
    };
    let seen = &trial.log.stores()[*number as usize];
    is_store_shown(alloc, trial, roll, runs, store, seen)
}
